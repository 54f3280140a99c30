// What is asked of the engine and changes nothing (vram_dma.rs, `impl VramDma`, and
// `vram_dma_write_conflict_source`).
#![tactic(auto)]

ghost use Rattle.std.specs.Prelude.{◌≡◌};
ghost use Rattle.transfer.specs.Questions.{status_of, block_left, request_standing, holds_cpu, seizes_bus};
ghost use Rattle.transfer.specs.Conflict.{will_move, conflicts, conflict_of};

use console::vram_dma::{TransferMode, VramDma};
use transfer::VramDmaStatus;

#[tactic(auto, unfolding(transfer::specs::Questions::status_of))]
pub fn status(d: VramDma) -> VramDmaStatus
    ensures { result ≡ status_of d }
{
    let c = d.cursor;
    match c.mode {
        TransferMode::Idle => VramDmaStatus::Idle,
        TransferMode::General => VramDmaStatus::General {
            remaining: c.remaining,
        },
        TransferMode::HBlank => VramDmaStatus::HBlank {
            remaining: c.remaining,
            source: c.source,
            dest: advance::write_address(c),
        },
    }
}

// Bytes of a latched block are still to move.
fn block_left(d: VramDma) -> bool
    ensures { result ≡ block_left d }
{
    (d.block.remaining > 0) & (d.cursor.remaining > 0)
}

pub fn request_standing(d: VramDma) -> bool
    ensures { result ≡ request_standing d }
{
    d.arb.pend | block_left(d)
}

#[tactic(auto, unfolding(transfer::specs::Questions::holds_cpu))]
pub fn holds_cpu(d: VramDma) -> bool
    ensures { result ≡ holds_cpu d }
{
    (d.cursor.mode == TransferMode::General) & (d.cursor.remaining > 0)
}

#[tactic(auto, unfolding(transfer::specs::Questions::seizes_bus))]
pub fn seizes_bus(d: VramDma) -> bool
    ensures { result ≡ seizes_bus d }
{
    !d.block.ready_in.active() & (d.block.setup_cells.active() | block_left(d))
}

// A byte moves at the next bus call: no set-up cell stands, quota is there and the engine moves.
#[tactic(auto, unfolding(transfer::specs::Conflict::will_move))]
pub fn will_move(d: VramDma) -> bool
    ensures { result ≡ will_move d }
{
    !d.block.setup_cells.active() & (d.cursor.quota > 0) & next_pair::moving(d)
}

// Double speed only, and once the seizure has settled for one fall. The speed comes beside the engine: it is the console's.
#[tactic(auto, unfolding(transfer::specs::Conflict::conflicts))]
fn conflicts(d: VramDma, double_speed: bool, address: u16) -> bool
    ensures { result ≡ conflicts double_speed address d }
{
    double_speed
        & (d.block.seize_falls >= 2)
        & block_left(d)
        & (address == advance::write_address(d.cursor))
}

// The source of the byte that a CPU read of an address collides with.
#[tactic(auto, unfolding(transfer::specs::Conflict::conflict_of))]
pub fn write_conflict_source(d: VramDma, double_speed: bool, address: u16) -> Option<u16>
    ensures { result ≡ conflict_of double_speed address d }
{
    conflicts(d, double_speed, address).then_some(d.cursor.source)
}
