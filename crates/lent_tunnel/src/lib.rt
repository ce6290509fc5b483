// What the calls over lent bytes come to, in specs/ and proofs/. There is no function.

#![tactic(auto)]
