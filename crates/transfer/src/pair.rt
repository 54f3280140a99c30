// What a next-pair call and an escape drain answer (vram_dma.rs, `next_byte`, `drain_escape`).
use console::vram_dma::VramDma;

// Where a byte is read and where it is stored.
#[derive(Clone, Copy)]
pub struct BytePair {
    pub source: u16,
    pub dest: u16,
}

// How the run goes on after a pair (document 02, A3).
#[derive(Clone, Copy)]
pub enum Cause {
    // Bytes are left.
    GoingOn,
    // Left fell to 0.
    CountedOut,
    // The destination went past FFFFh, which ends the run whatever was left.
    Carried,
}

// The pair, if one came, with how the run goes on, and the engine after: it stands in both cases, so there is no Option around the two.
#[derive(Clone, Copy)]
pub struct NextByte {
    pub answer: Option<(BytePair, Cause)>,
    pub dma: VramDma,
}
