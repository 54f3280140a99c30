// The ledger of document 01, section 5, and demand 3 of every list of calls (specs/Demand3, proofs/Theorem), tied to the
// public calls (specs/Code). No code of its own.
#![tactic(auto)]
