// No function: the choices for gap regions, by definitions and laws alone.
#![tactic(auto)]
