// What the engine is told (vram_dma.rs, `vram_dma_on_lcd_disabled`; lib.rs, `vram_dma_instruction_retired`): the LCD goes
// off, an instruction has retired. With the LCD off no HBlank will come, so one block is served at once.
#![tactic(auto)]

ghost use Rattle.std.specs.Prelude.{◌≡◌};
ghost use Rattle.transfer.specs.Latch.{latched_block, latched_of, unclaimed, latches_dark, lcd_disabled_of, retired_of};

use console::vram_dma::{HblankBlock, TransferMode, VramDma};

#[tactic(auto, unfolding(transfer::specs::Latch::latched_block))]
fn latched_block(b: HblankBlock) -> HblankBlock
    ensures { result ≡ latched_block b }
{
    HblankBlock {
        remaining: 16,
        setup_cells: b.setup_cells.clear(),
        ready_in: b.ready_in.arm(2),
        ..b
    }
}

// With the LCD off no HBlank will come, so one block is served at once.
#[tactic(auto, unfolding(transfer::specs::Latch::latched_of))]
pub fn latch_block(mut d: VramDma) -> VramDma
    ensures { result ≡ latched_of d }
{
    d.block = latched_block(d.block);
    d.arb.pend_from_arm = true;
    d
}

fn drop_idle_claim(mut d: VramDma) -> VramDma
    ensures { result ≡ unclaimed d }
{
    d.arb.idle_claim = false;
    d
}

// An armed transfer with bytes left, none taken in this HBlank and no block standing.
#[tactic(auto, unfolding(transfer::specs::Latch::latches_dark))]
fn latches_dark(d: VramDma) -> bool
    ensures { result ≡ latches_dark d }
{
    (d.cursor.mode == TransferMode::HBlank)
        & (d.cursor.remaining > 0)
        & !d.block.taken
        & (d.block.remaining == 0)
}

// The LCD goes off: the idle claim drops, and an armed transfer that waits is served one block.
#[tactic(auto, unfolding(transfer::specs::Latch::lcd_disabled_of))]
pub fn on_lcd_disabled(d: VramDma) -> VramDma
    ensures { result ≡ lcd_disabled_of d }
{
    let dropped = drop_idle_claim(d);
    if latches_dark(d) {
        return latch_block(dropped);
    }
    dropped
}

// The instruction in flight has retired: the block waits for it no longer.
pub fn instruction_retired(mut d: VramDma) -> VramDma
    ensures { result ≡ retired_of d }
{
    d.arb.park_waits_for_fetch = false;
    d
}
