// Where reading is refused stands in specs/; there is no code.
#![tactic(auto)]
