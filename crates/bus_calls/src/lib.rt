// The calls on the bus that the engine shares: the bus call, arbitration with OAM DMA and the write conflict. Each tests 7 and its
// own refusals in the paper's order; those that change the state hand back what they were given where they decline.
#![tactic(auto)]

pub mod bus_call;
pub mod inside;
pub mod shared_bus;
