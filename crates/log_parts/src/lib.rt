// The steps that a program feeds in parts: a script and a board's log judged, and the engine's own log written (board_log has what they
// come to, and the theorems on whole files).
#![tactic(auto)]

pub mod judge_part;
pub mod log_part;
