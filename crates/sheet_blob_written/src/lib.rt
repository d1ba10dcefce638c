// No code: the normal bytes of a blob, and that reading gives the same number and sheet back.
#![tactic(auto)]
