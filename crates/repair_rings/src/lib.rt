// No code: the rings of the boundary sides of a set, closed and each side in one once.
#![tactic(auto)]
