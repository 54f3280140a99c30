// The byte engine of vram_dma.rs (`impl VramDma`, `impl TransferCursor`): what it answers. Definitions and laws stand in
// specs/ and proofs/; the functions in `advance` and `next_pair` (a pair), `dma_status` (what is asked) and `dma_events`
// (what it is told).
#![tactic(auto)]

pub mod pair;

// What the engine is doing, for inspection.
#[derive(Clone, Copy)]
pub enum VramDmaStatus {
    Idle,
    General {
        remaining: u16,
    },
    HBlank {
        remaining: u16,
        source: u16,
        dest: u16,
    },
}
