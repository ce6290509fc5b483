// F-5: definitions of routes and their laws, in specs/ and proofs/. There is no function.

#![tactic(auto)]
