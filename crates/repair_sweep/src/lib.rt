// No code: the side that is met first anticlockwise round a corner follows.
#![tactic(auto)]
