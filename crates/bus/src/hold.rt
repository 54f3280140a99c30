// What arbitration and the bus call are given where object DMA's state comes from inside (document 02, A1).

// Its two flags stand in `ArbitrationInput` and in `BusInput` too: a part for them would ask a caller of each to write one level more
// for the same two.
#[derive(Clone, Copy)]
pub struct HoldInput {
    // A bus master holds the CPU.
    pub hold: bool,
    pub suspended: bool,
}
