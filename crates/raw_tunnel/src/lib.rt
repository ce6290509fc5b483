// What the calls over numbers and arrays come to, in specs/ and proofs/. There is no function.

#![tactic(auto)]
