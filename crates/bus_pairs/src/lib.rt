// The pairs of a bus call: taken until none comes, each byte read and stored (vram_dma.rs, `vram_dma_commit_bytes`).
#![tactic(auto)]

ghost use Rattle.std.specs.Prelude.{◌≡◌};
ghost use Rattle.bus.specs.Commit.{Ran, loop_of};

use bus::commit::{Banks, NO_PAIRS, Run};
use console::vram_dma::VramDma;
use memory::put_at;
use transfer::pair::Cause;

// Pairs are taken until none comes: a loop that breaks there, since no iterator lends the memory that each pair changes. Each takes one from
// quota, so that they end, and what quota has lost is how many have moved. The slices come one by one: the loop reads two, writes VRAM,
// and is not lent OAM.
pub fn move_pairs(d: VramDma, banks: Banks, cartridge: &[u8], wram: &[u8], vram: &mut [u8]) -> Run
    ensures { record { run = result; vram = vram.new }
        ≡ loop_of banks cartridge.now wram.now d vram.old }
{
    let mut dma = d;
    let mut pairs = NO_PAIRS;
    let mut causes = [Cause::GoingOn; 2];
    let mut bytes = [0u8; 2];
    let count = loop {
        let moved = d.cursor.quota - dma.cursor.quota;
        let next = next_pair::next_byte(dma);
        let Some((pair, cause)) = next.answer else {
            break moved;
        };
        dma = next.dma;
        let byte = bus_memory::source::read_hdma_source(cartridge, wram, banks.svbk, pair.source);
        bus_memory::store::commit_vram(vram, banks.vram, pair.dest, byte);
        let place = moved as usize;
        put_at(&mut pairs, place, pair);
        put_at(&mut causes, place, cause);
        put_at(&mut bytes, place, byte);
    };
    Run {
        dma,
        count,
        pairs,
        causes,
        bytes,
        setup_cell: false,
    }
}
