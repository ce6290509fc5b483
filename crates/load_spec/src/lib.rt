// F-13: the load, by definitions, and its laws, in specs/ and proofs/. There is no function.

#![tactic(auto)]
