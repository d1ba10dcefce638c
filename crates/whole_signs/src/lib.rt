// No code: the sign of a whole number, and proofs by going through all signs.
#![tactic(auto)]
