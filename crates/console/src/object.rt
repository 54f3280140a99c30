// Object DMA (document 02, A1; Pan Docs, "OAM DMA Transfer"; document 01 calls it OAM DMA): a write to FF46 moves 160 bytes into OAM.

#[derive(Clone, Copy, Default)]
pub struct ObjectDma {
    // A write to FF46 has started it; the 160th byte counted clears it. It runs while this stands and fewer are counted.
    pub running: bool,
    // The high byte of the source: what was written to FF46. It stays when the 160 are counted.
    pub page: u8,
    // Bytes counted since the write, those passed over included: where in OAM the next one goes.
    pub counted: u8,
    // The master edge that the write gave. It stays when the 160 are counted: a bus call after them may still deposit a byte by it.
    pub start_edge: u64,
}
