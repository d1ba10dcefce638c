// No code: what is answered after repair.
#![tactic(auto)]
