// FF55: the status that it reads, and the three things that a write to it can do.
ghost use Rattle.std.specs.Prelude.{◌≡◌};
ghost use Rattle.hdma.specs.Hdma5.{status_byte, grants_cleared, paced, armed_of, cancelled_of, general_started, hdma5_written};
ghost use Rattle.console.specs.Set.{with_dma_cursor};

use arithmetic::pick::pick;
use console::vram_dma::{HaltArbiter, TransferCursor, TransferMode, VramDma};

// From bit 7 down: the active bit, 0 while armed with a block to show; then the remaining length, 127 where no block shows.
#[tactic(auto, unfolding(crate::specs::Hdma5::status_byte))]
pub fn status_byte(d: VramDma) -> u8
    ensures { result ≡ status_byte d }
{
    let visible = (d.cursor.remaining / 16).saturating_sub(u16::from(d.arb.granted_ahead));
    let active = (d.cursor.mode == TransferMode::HBlank) & (visible > 0);
    let active_bit = pick(active, 0, 128);
    let remaining_length = ((visible % 128 + 127) % 128) as u8;
    active_bit + remaining_length
}

// Blocks granted and pends granted are counted from the write on.
fn clear_grant_marks(a: HaltArbiter) -> HaltArbiter
    ensures { result ≡ grants_cleared a }
{
    HaltArbiter {
        granted_ahead: 0,
        grant_counted: false,
        pend_granted: false,
        ..a
    }
}

fn pace(d: VramDma, mode: TransferMode, length: u16) -> VramDma
    ensures { result ≡ with_dma_cursor (paced mode length d.cursor) d }
{
    VramDma {
        cursor: TransferCursor {
            mode,
            remaining: length,
            ..d.cursor
        },
        ..d
    }
}

// Bit 7 set: a block with each HBlank. With the LCD off none will come, and one block is latched now.
#[tactic(auto, unfolding(crate::specs::Hdma5::armed_of))]
fn arm(d: VramDma, length: u16, lcd_on: bool) -> VramDma
    ensures { result ≡ armed_of length lcd_on d }
{
    let paced = pace(d, TransferMode::HBlank, length);
    let armed = VramDma {
        arb: HaltArbiter {
            armed_this_fall: true,
            ..paced.arb
        },
        ..paced
    };
    if lcd_on {
        armed
    } else {
        dma_events::latch_block(armed)
    }
}

// Bit 7 clear while armed: only the arming ends. A latched block stays.
#[tactic(auto, unfolding(crate::specs::Hdma5::cancelled_of))]
fn cancel(d: VramDma, length: u16) -> VramDma
    ensures { result ≡ cancelled_of length d }
{
    pace(d, TransferMode::Idle, length)
}

// Bit 7 clear otherwise: the whole length at once.
#[tactic(auto, unfolding(crate::specs::Hdma5::general_started))]
fn start_general(d: VramDma, length: u16) -> VramDma
    ensures { result ≡ general_started length d }
{
    pace(d, TransferMode::General, length)
}

#[tactic(auto, unfolding(crate::specs::Hdma5::hdma5_written))]
pub fn write_hdma5(d: VramDma, value: u8, lcd_on: bool) -> VramDma
    ensures { result ≡ hdma5_written value lcd_on d }
{
    let length = (u16::from(value % 128) + 1) * 16;
    let cleared = VramDma {
        arb: clear_grant_marks(d.arb),
        ..d
    };
    if value >= 128 {
        arm(cleared, length, lcd_on)
    } else if d.cursor.mode == TransferMode::HBlank {
        cancel(cleared, length)
    } else {
        start_general(cleared, length)
    }
}
