// No code: the cases K1 to K8 and K10 (specs/Cases.antt) by the calls' own definitions, with the ledger beside them, in one theorem.
#![tactic(auto)]
