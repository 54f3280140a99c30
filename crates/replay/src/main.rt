// Replays records of 16 bytes from standard input, from power-on without compat, and writes a line for each
// (document 01, section 6): record from 0, refusal or 0, pairs, left, FF55 in two capitals; the pair's cause (document 02, A3). It streams:
// input and output pass through buffers of fixed size, and each read's lines are written before the next read. It ends with the input,
// or where lines cannot be written, as in a pipe whose reader has gone.
#![tactic(auto)]

ghost use Rattle.std.specs.Prelude.{◌≡◌, ◌-◌, ◌*◌, ◌/◌, ◌<◌, ◌≤◌, length, if◌then◌else◌};

use console::Cgb;
use replay_step::{line, read, step};
use std::io::{Read, Write};
use stream::Buffer;
use text::Text;

// Below this many bytes the output buffer still takes a line whole.
const NEARLY_FULL: usize = 65000;

// The engine's state and the next record's number.
#[derive(Clone, Copy)]
struct Replay {
    state: Cgb,
    number: u64,
}

// The records of one part of the input, with their lines written: whether all of them were. A flag and no `?`: after a write that fails the
// part's other lines are still tried. The number goes on over the parts, so no `enumerate`; and output, replay and buffers come one by one, since a
// text borrows `out` while a step borrows `wram`.
fn feed<W: Write>(
    output: &mut W,
    replay: &mut Replay,
    part: &[u8],
    out: &mut [u8],
    wram: &mut [u8],
) -> bool {
    let mut text = Text { out, at: 0 };
    let mut written = true;
    for record in part.chunks(16) {
        let stepped = step::perform(replay.state, wram, read::record_of(record));
        replay.state = stepped.state;
        line::push_line(&mut text, replay.number, stepped.line);
        replay.number = replay.number.wrapping_add(1);
        if text.at > NEARLY_FULL {
            written &= output.write_all(text.stored()).is_ok();
            text.at = 0;
        }
    }
    written & output.write_all(text.stored()).is_ok()
}

// How many of the n bytes are performed now: the whole records, and at the input's end what is left over as well.
fn due(n: usize, more: bool) -> usize
    ensures within { (result ≤ n) × (n - result < 16) }
    ensures records { result ≡ (if more then n / 16 * 16 else n) }
{
    if more { n / 16 * 16 } else { n }
}

// One turn: what one read brings is performed, behind what waited, or at the end of the input what waited. Whether another may follow,
// which is not so after the end of the input or of what can be written.
fn turn<R: Read, W: Write>(
    script: &mut Buffer<R, 65536>,
    output: &mut W,
    replay: &mut Replay,
    out: &mut [u8],
    wram: &mut [u8],
) -> bool
    ensures rest { length script.new < 16 }
{
    let more = matches!(script.read(), Ok(came) if came != 0);
    let end = due(script.waiting().len(), more);
    let written = feed(output, replay, &script.waiting()[..end], out, wram);
    script.take(end);
    more & written
}

fn main(rt: HostRuntime) {
    let mut script = Buffer::new(rt.stdin());
    let mut output = rt.stdout();
    let mut out = [0u8; 65536];
    let mut wram = [0u8; 32768];
    let mut replay = Replay {
        state: engine::power_on(false),
        number: 0,
    };
    // to the end of the input: a loop has to end, and one over `forever` would need the handle Wait
    for _ in 0..u64::MAX {
        if !turn(&mut script, &mut output, &mut replay, &mut out, &mut wram) {
            break;
        }
    }
}
