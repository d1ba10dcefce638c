// No code: the normal bytes of a sheet, and that reading gives the same numbers back.
#![tactic(auto)]
