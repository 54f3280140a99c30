// One replay record as a function (document 01, section 6): bytes to a record, a record to its call, the
// outcome to the numbers of a line, and these to text.
#![tactic(auto)]

pub mod line;
pub mod read;
pub mod step;
