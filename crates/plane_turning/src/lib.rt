// No code: the sharpest turn to the right, and that rays from a corner are told apart by signs.
#![tactic(auto)]
