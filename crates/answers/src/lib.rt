// What the calls answer: a value, or the refusal of a declined call. Where a call hands back the state, the two stand together.
#![tactic(auto)]

pub mod decided;
pub mod lent;
pub mod query;
pub mod values;

use console::Cgb;
use console::refusal::Refusal;
use transfer::pair::{BytePair, Cause};

// A call's answer, with the state after it: the state given where it is declined.
#[derive(Clone, Copy)]
pub struct Outcome<T> {
    pub answer: Result<T, Refusal>,
    pub state: Cgb,
}

// The engine's pointers, what is left, and whether an escape is owed.
#[derive(Clone, Copy)]
pub struct Tally {
    pub source: u16,
    pub dest: u16,
    pub remaining: u16,
    pub escape_byte: bool,
}

// How many pairs a bus call moved, and whether a set-up cell used it up. Both always stand, so no Option.
#[derive(Clone, Copy)]
pub struct Moved {
    pub count: u8,
    pub setup_cell: bool,
}

// Of pairs, causes and bytes the first `count` places are used, the others are 0 and going on. The paper's form, a count and arrays
// beside it: a list would need a heap.
#[derive(Clone, Copy)]
pub struct BusOutcome {
    pub answer: Result<Moved, Refusal>,
    pub pairs: [BytePair; 2],
    pub causes: [Cause; 2],
    pub bytes: [u8; 2],
    pub state: Cgb,
}

// What an M-cycle call made of object DMA's next byte, with the byte's source.
#[derive(Clone, Copy)]
pub enum Cycle {
    // At rest or stalled. One of the paper's three outcomes, so no Option around the other two.
    Nothing,
    Moved(u16),
    // Contended: counted, not moved.
    PassedOver(u16),
}

// The byte is 0 where none moved. It stands beside the answer and not in `Moved`, so that answer and state look at no more of the
// memory than its lengths.
#[derive(Clone, Copy)]
pub struct Cycled {
    pub answer: Result<Cycle, Refusal>,
    pub byte: u8,
    pub state: Cgb,
}

// Object DMA: whether it runs, the bytes counted, the page.
#[derive(Clone, Copy)]
pub struct ObjectDmaTally {
    pub runs: bool,
    pub counted: u8,
    pub page: u8,
}
