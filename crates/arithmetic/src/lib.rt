// Arithmetic that every other crate shares: a choice between two values (`pick`), a sum with its carry (`step`), a part of a
// run of bytes (`bytes`). Numbers of several bytes and the saturating steps are std's; specs/ has what the paper says of them.
#![tactic(auto)]

pub mod bytes;
pub mod pick;
pub mod step;
