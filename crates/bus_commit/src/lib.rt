// The bus call (vram_dma.rs, `vram_dma_commit_bytes`, `take_setup_cell`): nothing, a set-up cell, or pairs and the deposit.
#![tactic(auto)]

ghost use Rattle.std.specs.Prelude.{◌≡◌};
ghost use Rattle.bus.specs.Commit.{idle_run, Committed};

use bus::commit::{Banks, BusInput, NO_PAIRS, Run};
use console::vram_dma::{HblankBlock, VramDma};
use transfer::pair::Cause;

// A call that moves no pair, with the engine after it; `setup_cell`: a set-up cell used it up.
fn idle(dma: VramDma, setup_cell: bool) -> Run
    ensures { result ≡ idle_run setup_cell dma }
{
    Run {
        dma,
        count: 0,
        pairs: NO_PAIRS,
        causes: [Cause::GoingOn; 2],
        bytes: [0; 2],
        setup_cell,
    }
}

// The slices come one by one: it reads two and writes two, and hands on to each part those that the part looks at.
pub fn commit_bytes(
    d: VramDma,
    banks: Banks,
    i: BusInput,
    cartridge: &[u8],
    wram: &[u8],
    vram: &mut [u8],
    oam: &mut [u8],
) -> Run
    ensures { Committed banks i d cartridge.now wram.now vram.old oam.old
        result vram.new oam.new }
{
    let released = !(i.hold | i.suspended);
    if released {
        return idle(d, false);
    }
    let cell = d.block.setup_cells.tick();
    if cell.flag {
        let block = HblankBlock {
            setup_cells: cell.next,
            ..d.block
        };
        return idle(VramDma { block, ..d }, true);
    }
    let run = bus_pairs::move_pairs(d, banks, cartridge, wram, vram);
    let phase = oam_deposit::phase(d.block.start_edge, i.oam_start_edge);
    oam_deposit::deposit(oam, d.oam.contended, run.count, run.pairs, run.bytes, phase);
    run
}
