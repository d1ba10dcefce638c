// No code: whole numbers, sums over lists, and the law of net counts.
#![tactic(auto)]
