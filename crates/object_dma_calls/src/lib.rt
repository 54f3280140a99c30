// The calls of object DMA (document 02, A1): its M-cycle call, and what is asked of it. The write to FF46 that starts it is a register
// write; arbitration and the bus call with its state from inside stand beside the others (`bus_calls`).
#![tactic(auto)]

pub mod cycle;
pub mod query;
