// No code: a sheet whose members have the rings of the polygons after repair is clean.
#![tactic(auto)]
