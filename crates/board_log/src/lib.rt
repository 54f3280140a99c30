// The board's log (document 02, A2): a record of 16 bytes for each record of a replay script. The engine's record of a step; what
// a judge knows, its answer and its line. The steps that a program feeds in parts are log_parts'.
#![tactic(auto)]

pub mod judging;
pub mod log_record;
pub mod own;
pub mod records;
pub mod verdict;
