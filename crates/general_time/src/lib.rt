// How many bus calls a General transfer takes (document 02, A5): a claim about lists of calls, with no code.
#![tactic(auto)]
