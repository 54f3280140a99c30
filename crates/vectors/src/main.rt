// Replays vectors that the original made (differential/): each is a call, the state before, the
// original's answer, the state after and the bytes of memory that it changed. Any difference is a line.
#![tactic(auto)]

mod lent;
mod vector;

use lent::Lent;
use vector::Vector;

// What has been replayed.
#[derive(Clone, Copy, Default)]
struct Tally {
    records: u64,
    differences: u64,
}

impl Tally {
    // The first twenty differences are told; all are counted.
    fn differs(self, rt: &impl Print, kind: u8) -> Self {
        if self.differences < 20 {
            let n = self.records;
            let _ = println!(rt; "record {n}, kind {kind} differs");
        }
        Tally {
            differences: self.differences.saturating_add(1),
            ..self
        }
    }

    fn replayed(self) -> Self {
        Tally {
            records: self.records.saturating_add(1),
            ..self
        }
    }
}

// A number of turns that no input reaches: a loop has to end, and one over `forever` would need the handle Wait.
fn replay_all(rt: &HostRuntime) -> Tally {
    let mut tally = Tally::default();
    let mut input = rt.stdin();
    let mut lent = Lent::new();
    for _ in 0..u64::MAX {
        let Ok(vector) = Vector::read(&mut input) else {
            return tally;
        };
        if !vector.agrees(&mut lent) {
            tally = tally.differs(rt, vector.kind());
        }
        tally = tally.replayed();
    }
    tally
}

fn main(rt: HostRuntime) {
    let Tally {
        records,
        differences,
    } = replay_all(&rt);
    let _ = println!(rt; "{records} records, {differences} differ");
}
