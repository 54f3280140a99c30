// A pair: the address that its byte lands on, cursor, block and arbiter after it (vram_dma.rs, `write_address`, `next_byte`),
// and how the run goes on. Whether one comes is asked in `next_pair`.
#![tactic(auto)]

ghost use Rattle.std.specs.Prelude.{◌≡◌};
ghost use Rattle.transfer.specs.Questions.{write_address};
ghost use Rattle.transfer.specs.Pair.{left_if, cursor_after, block_after, arb_after, advanced_of, cause_if};

use arithmetic::pick::pick;
use arithmetic::step::overflowing_add16;
use console::vram_dma::{HaltArbiter, HblankBlock, TransferCursor, TransferMode, VramDma};
use transfer::pair::Cause;

// The VRAM address that the next byte lands on.
pub fn write_address(c: TransferCursor) -> u16
    ensures { result ≡ write_address c }
{
    0x8000 + c.dest % 0x2000
}

// What is left after a pair: an owed escape is taken instead, and a carry ends the transfer. The flag is a value of the paper's rule, and no
// step to run.
fn left_after(c: TransferCursor, carried: bool) -> u16
    ensures { result ≡ left_if carried c }
{
    let counted = pick(c.escape_byte, c.remaining, c.remaining.saturating_sub(1));
    pick(carried, 0, counted)
}

#[tactic(auto, unfolding(transfer::specs::Pair::cursor_after))]
fn cursor_after(c: TransferCursor) -> TransferCursor
    ensures { result ≡ cursor_after c }
{
    let (dest, carried) = overflowing_add16(c.dest, 1);
    let remaining = left_after(c, carried);
    TransferCursor {
        source: c.source.wrapping_add(1),
        dest,
        mode: pick(remaining == 0, TransferMode::Idle, c.mode),
        remaining,
        quota: c.quota.saturating_sub(1),
        escape_byte: false,
    }
}

#[tactic(auto, unfolding(transfer::specs::Pair::block_after))]
fn block_after(b: HblankBlock) -> HblankBlock
    ensures { result ≡ block_after b }
{
    let last = b.remaining == 1;
    HblankBlock {
        remaining: b.remaining.saturating_sub(1),
        from_arm: b.from_arm & !last,
        ..b
    }
}

// last: the pair is the block's last one; ended: nothing is left. Values of the paper's rule, and no steps to run.
#[tactic(auto, unfolding(transfer::specs::Pair::arb_after))]
fn arb_after(a: HaltArbiter, last: bool, ended: bool) -> HaltArbiter
    ensures { result ≡ arb_after last ended a }
{
    HaltArbiter {
        park_waits_for_fetch: a.park_waits_for_fetch & !last,
        idle_claim: a.idle_claim & !ended,
        granted_ahead: pick(last, a.granted_ahead.saturating_sub(1), a.granted_ahead),
        ..a
    }
}

#[tactic(auto, unfolding(transfer::specs::Pair::advanced_of, transfer::specs::Pair::cursor_after))]
pub fn advance(d: VramDma) -> VramDma
    ensures { result ≡ advanced_of d }
{
    let last = d.block.remaining == 1;
    let cursor = cursor_after(d.cursor);
    VramDma {
        cursor,
        block: block_after(d.block),
        arb: arb_after(d.arb, last, cursor.remaining == 0),
        ..d
    }
}

// How the run goes on (document 02, A3): carried: the destination went past FFFFh; left: after the pair.
pub fn cause(carried: bool, left: u16) -> Cause
    ensures { result ≡ cause_if carried left }
{
    if carried {
        Cause::Carried
    } else if left == 0 {
        Cause::CountedOut
    } else {
        Cause::GoingOn
    }
}
