// No code: closed lines in the binary form of OGC 06-103r4, little-endian.
#![tactic(auto)]
