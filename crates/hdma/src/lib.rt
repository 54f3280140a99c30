// The transfer's registers FF51 to FF55 (registers.rs, the arms of `map_write_byte` and `map_read_byte`).
#![tactic(auto)]

pub mod hdma5;
pub mod pointer;
