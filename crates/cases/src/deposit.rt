// K8: which byte of a contended bus call lands in OAM, and the last place that takes one.
use crate::case::Case;
use crate::lent::Memory;
use crate::{general, say};
use std::rt::Stdout;

// FF55=80 with source 1230h.
fn armed(out: Stdout) -> Case {
    let start = Case::power_on(out, false);
    start.set(0xFF51, 0x12).set(0xFF52, 0x30).set(0xFF55, 0x80)
}

// A block whose commit, K2's third fall, came at this edge.
fn committed(out: Stdout, block_edge: u64) -> Case {
    armed(out).fallen(3).fallen(0).fallen_at(0, block_edge)
}

// Its set-up cell taken, two pairs to move, and OAM DMA beside it.
fn contended(out: Stdout, block_edge: u64) -> Case {
    let cell = committed(out, block_edge).fallen(0).bus("bus, pairs");
    cell.fallen(0).arbitrate("arbitration")
}

// The first byte would land at FE30, the second at FE31.
fn landed(case: Case, label: &str, oam_edge: u64) {
    let mut lent = Memory::new();
    case.bus_beside(label, oam_edge, &mut lent);
    lent.say_place(case.out, 0x30);
    lent.say_place(case.out, 0x31);
    lent.stored(case.out);
}

// Block edge 100: OAM edges 98 and 92 the second, 96 and 94 the first. Both 0: the second, as phase 3; OAM edge 4 is phase 1 by the wrap,
// and gives the first.
pub fn k8(out: Stdout) {
    say::line(out, "K8");
    let at_100 = contended(out, 100);
    landed(at_100, "OAM edge 98, bus, pairs", 98);
    landed(at_100, "OAM edge 92, bus, pairs", 92);
    landed(at_100, "OAM edge 96, bus, pairs", 96);
    landed(at_100, "OAM edge 94, bus, pairs", 94);
    let wrapped = contended(out, 0);
    landed(wrapped, "both edges 0, bus, pairs", 0);
    landed(wrapped, "OAM edge 4, bus, pairs", 4);
}

fn contended_round(case: Case, oam_edge: u64, lent: &mut Memory) -> Case {
    let shared = case.fallen(3).arbitrate("fall, arbitration");
    let after = shared.bus_beside("bus, pairs", oam_edge, lent);
    lent.say_place(after.out, 0x9F);
    after
}

fn from_90(out: Stdout) -> Case {
    Case::power_on(out, false)
        .set(0xFF52, 0x90)
        .set(0xFF55, 0x01)
}

// A General transfer has block edge 0: OAM edge 0 is phase 3 and gives the second byte, 009F's at FE9F,
// which is stored; OAM edge 4 is phase 1 and gives the first, 00A0's at FEA0, which is not.
pub fn last_place(out: Stdout) {
    say::line(out, "deposits at FE9F and FEA0");
    let mut lent = Memory::new();
    let seven = general::rounds(from_90(out), 7, &mut lent);
    let eight = contended_round(seven, 0, &mut lent);
    contended_round(eight, 4, &mut lent);
    lent.stored(out);
}
