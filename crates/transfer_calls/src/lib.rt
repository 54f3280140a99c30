// The calls that act on the transfer: the next pair, the escape drain, LCD off, an instruction retired. Each tests 7, hands back
// what it was given where it declines, and leaves the work to one function of `next_pair` or `dma_events`.
#![tactic(auto)]

pub mod lcd;
pub mod pair;
