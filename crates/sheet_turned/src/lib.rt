// The sheet with its rings turned stands in specs/; there is no code.
#![tactic(auto)]
