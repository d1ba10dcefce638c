// No code: reading accepts exactly the standard's encodings of sheets within the limits.
#![tactic(auto)]
