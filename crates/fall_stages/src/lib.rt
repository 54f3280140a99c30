// What a fall is given, what its stages see and what it leaves; the fall itself is defined in specs/Fall.antt. No code: the laws of
// the fall are shown here of the definitions alone.
#![tactic(auto)]

use console::VramDmaClaim;
use console::vram_dma::VramDma;

// What a fall is given.
#[derive(Clone, Copy)]
pub struct FallInput {
    // 0 to 3; 0 is HBlank. A number and no enum: a caller may hand any, and one above 3 is declined with refusal 1.
    pub mode: u8,
    pub halted: bool,
    pub irq_latched: bool,
    pub stopped: bool,
    pub master_edge: u64,
    // OAM DMA owns a bus.
    pub oam_owns_bus: bool,
}

// What every stage of one fall sees. It goes beside the engine, not in a struct with it: each stage makes the engine anew, and the view
// stands through the fall.
#[derive(Clone, Copy)]
pub struct View {
    pub in_hblank: bool,
    // Mode 0 now and not at the previous fall: document 01's "entry".
    pub entry_edge: bool,
    pub cpu_halted: bool,
    // The CPU was halted at the previous fall.
    pub was_halted: bool,
    // Mode HBlank.
    pub armed: bool,
    pub double_speed: bool,
    pub master_edge: u64,
    pub oam_owns_bus: bool,
}

// A fall's outcome: refused where an uncounted commit would raise granted from 255; the claim has both flags false where nothing
// committed. No Option: refused, it holds the engine given, and laws of every fall, refused ones too, speak of that engine.
#[derive(Clone, Copy)]
pub struct Fallen {
    pub refused: bool,
    pub claim: VramDmaClaim,
    pub dma: VramDma,
}
