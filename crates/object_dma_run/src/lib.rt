// Object DMA over every list of calls (document 02, A1): definitions and theorems in specs/ and proofs/; no function.
#![tactic(auto)]
