// What a bus call is given and what it gives (vram_dma.rs, `vram_dma_commit_bytes`).
use console::vram_dma::VramDma;
use transfer::pair::{BytePair, Cause};

// What a bus call is given.
#[derive(Clone, Copy)]
pub struct BusInput {
    // A bus master holds the CPU.
    pub hold: bool,
    pub suspended: bool,
    // The edge at which OAM DMA started.
    pub oam_start_edge: u64,
}

// The banks that source and destination go through.
#[derive(Clone, Copy)]
pub struct Banks {
    pub svbk: u8,
    pub vram: u8,
}

// The two places for pairs with none in them.
pub const NO_PAIRS: [BytePair; 2] = [BytePair { source: 0, dest: 0 }; 2];

// The pairs of a call, how many there were, their causes and their bytes; the engine after them. A count beside arrays, and no list:
// document 01 gives a bus call's answer so.
#[derive(Clone, Copy)]
pub struct Run {
    pub dma: VramDma,
    pub count: u8,
    pub pairs: [BytePair; 2],
    pub causes: [Cause; 2],
    pub bytes: [u8; 2],
    // The call went to a set-up cell. A flag beside the count, and no Option: both always stand.
    pub setup_cell: bool,
}
