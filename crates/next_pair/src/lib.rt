// The next pair of addresses and the escape drain (vram_dma.rs, `moving`, `refill_quota`, `next_byte`, `drain_escape`).
#![tactic(auto)]

ghost use Rattle.std.specs.Prelude.{◌≡◌};
ghost use Rattle.transfer.specs.Pair.{moving_of, quota_of, next_byte_of, drain_of};

use arithmetic::pick::pick;
use console::vram_dma::{TransferCursor, TransferMode, VramDma};
use transfer::pair::{BytePair, NextByte};

// Whether a byte may move: bytes are left, and a ready block stands or the mode is General.
#[tactic(auto, unfolding(transfer::specs::Pair::moving_of))]
pub fn moving(d: VramDma) -> bool
    ensures { result ≡ moving_of d }
{
    let left = d.cursor.remaining > 0;
    let general = d.cursor.mode == TransferMode::General;
    ((d.block.remaining > 0) & left & !d.block.ready_in.active()) | (general & left)
}

// The bytes that an M-cycle may move.
pub fn quota(moving: bool, double_speed: bool) -> u8
    ensures { result ≡ quota_of moving double_speed }
{
    pick(moving, pick(double_speed, 1, 2), 0)
}

#[tactic(auto, using(transfer::proofs::CauseSteps::left_after_lem), unfolding(transfer::specs::Pair::next_byte_of))]
pub fn next_byte(d: VramDma) -> NextByte
    ensures { result ≡ next_byte_of d }
{
    let ready = (d.cursor.quota > 0) & moving(d);
    if ready {
        let dma = advance::advance(d);
        let pair = BytePair {
            source: d.cursor.source,
            dest: advance::write_address(d.cursor),
        };
        let cause = advance::cause(d.cursor.dest == 0xFFFF, dma.cursor.remaining);
        return NextByte {
            answer: Some((pair, cause)),
            dma,
        };
    }
    NextByte {
        answer: None,
        dma: d,
    }
}

// The escape byte of a cut, moved outside the length.
#[tactic(auto, unfolding(transfer::specs::Pair::drain_of))]
pub fn drain_escape(d: VramDma) -> NextByte
    ensures { result ≡ drain_of d }
{
    let owed = d.cursor.escape_byte & moving(d);
    if owed {
        let cursor = TransferCursor {
            quota: 1,
            ..d.cursor
        };
        return next_byte(VramDma { cursor, ..d });
    }
    NextByte {
        answer: None,
        dma: d,
    }
}
