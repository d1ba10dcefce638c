// No code: the three demands and the promises of document 01, as theorems about the definitions of the layers below.
#![tactic(auto)]
