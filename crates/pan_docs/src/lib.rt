// Pan Docs' registers, lengths, addresses and speed bits as definitions of their own (specs/PanDocs),
// and what is shown of the port beside them (specs/Agreement, proofs/Agrees). No code of its own.
#![tactic(auto)]
