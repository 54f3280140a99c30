// The byte that a contended bus call leaves in OAM (vram_dma.rs, `vram_dma_commit_bytes`).
#![tactic(auto)]

ghost use Rattle.std.specs.Prelude.{◌≡◌};
ghost use Rattle.bus.specs.Deposit.{phase_of, Coinciding, deposited};

use transfer::pair::BytePair;

// The phase between the two byte clocks, from the edges at which they started.
pub fn phase(block_edge: u64, oam_edge: u64) -> u64
    ensures { result ≡ phase_of block_edge oam_edge }
{
    block_edge.wrapping_sub(oam_edge).wrapping_sub(2) / 2 % 4
}

// Which byte of the call OAM DMA's coincides with: the second one at phases 0 and 3, where there is one.
fn coinciding(count: u8, phase: u64) -> usize
    ensures { Coinciding count phase result }
{
    let second = ((phase == 0) | (phase == 3)) & (count > 1);
    if second { 1 } else { 0 }
}

// The coinciding byte lands in OAM, at the low byte of its source. Count, pairs and bytes are parts of a `Run` and come alone: the
// whole would ask a caller for an engine and for causes that nothing here looks at.
#[tactic(auto, unfolding(bus::specs::Deposit::deposited))]
pub fn deposit(
    oam: &mut [u8],
    contended: bool,
    count: u8,
    pairs: [BytePair; 2],
    bytes: [u8; 2],
    phase: u64,
)
    ensures { oam.new ≡ deposited contended count pairs bytes phase oam.old }
{
    let nothing = !contended | (count == 0);
    if nothing {
        return;
    }
    let at = coinciding(count, phase);
    bus_memory::store::commit_oam(oam, 0xFE00 + pairs[at].source % 256, bytes[at]);
}
