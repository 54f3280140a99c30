// No code: every call keeps the widths of the state's fields, so that each state that a run leaves is read back from its 248 bytes
// (specs/Widths, proofs/Widths).
#![tactic(auto)]
