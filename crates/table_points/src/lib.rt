// No code: the triangle that a grid point belongs to, and which points a table covers.
#![tactic(auto)]
