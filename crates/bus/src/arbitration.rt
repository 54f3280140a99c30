// What arbitration is given and what it answers (vram_dma.rs, `vram_dma_arbitrate_oam_bus`).
use console::vram_dma::OamContention;

// What arbitration is given.
#[derive(Clone, Copy)]
pub struct ArbitrationInput {
    // A bus master holds the CPU.
    pub hold: bool,
    pub suspended: bool,
    // OAM DMA drives a byte in this M-cycle.
    pub oam_transferring: bool,
}

#[derive(Clone, Copy)]
pub enum Arbitration {
    Clear,
    // OAM DMA latches the VRAM DMA's byte.
    Contended,
    // OAM DMA's byte waits for an escape byte.
    Stall,
}

// Both parts always stand, so no Option.
#[derive(Clone, Copy)]
pub struct Arbitrated {
    pub answer: Arbitration,
    pub oam: OamContention,
}
