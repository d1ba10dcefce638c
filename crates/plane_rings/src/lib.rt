// Rings one by one, and their turning round, stand in specs/; there is no code.
#![tactic(auto)]
