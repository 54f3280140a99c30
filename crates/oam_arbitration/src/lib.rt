// Who has the shared bus (vram_dma.rs, `vram_dma_arbitrate_oam_bus`). The speed comes beside the engine: it is the console's.
#![tactic(auto)]

ghost use Rattle.std.specs.Prelude.{◌≡◌};
ghost use Rattle.bus.specs.Arbitration.{contends, stalls, arbitration_of, arbitrated_of};

use bus::arbitration::{Arbitrated, Arbitration, ArbitrationInput};
use console::vram_dma::{OamContention, VramDma};

// Single speed: both engines move a byte, or OAM DMA's last byte still shares the M-cycle.
#[tactic(auto, unfolding(bus::specs::Arbitration::contends))]
fn contends(d: VramDma, double_speed: bool, i: ArbitrationInput) -> bool
    ensures { result ≡ contends double_speed i d }
{
    !double_speed
        & (i.oam_transferring | d.oam.was_transferring)
        & (i.hold | i.suspended)
        & dma_status::will_move(d)
}

// Double speed: an escape byte's tenure holds OAM DMA's byte.
#[tactic(auto, unfolding(bus::specs::Arbitration::stalls))]
fn stalls(d: VramDma, double_speed: bool, i: ArbitrationInput) -> bool
    ensures { result ≡ stalls double_speed i d }
{
    double_speed
        & i.oam_transferring
        & (i.hold | i.suspended)
        & d.cursor.escape_byte
        & dma_status::will_move(d)
}

#[tactic(auto, unfolding(bus::specs::Arbitration::arbitration_of))]
fn verdict(contended: bool, stalled: bool) -> Arbitration
    ensures { result ≡ arbitration_of contended stalled }
{
    if contended {
        Arbitration::Contended
    } else if stalled {
        Arbitration::Stall
    } else {
        Arbitration::Clear
    }
}

#[tactic(auto, unfolding(bus::specs::Arbitration::arbitrated_of))]
pub fn arbitrate_oam_bus(d: VramDma, double_speed: bool, i: ArbitrationInput) -> Arbitrated
    ensures { result ≡ arbitrated_of double_speed i d }
{
    let contended = contends(d, double_speed, i);
    Arbitrated {
        answer: verdict(contended, stalls(d, double_speed, i)),
        oam: OamContention {
            was_transferring: i.oam_transferring,
            contended,
        },
    }
}
