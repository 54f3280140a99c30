// Tables by number: definitions and laws, no code. A `match` on a number is such a table.
#![tactic(auto)]
