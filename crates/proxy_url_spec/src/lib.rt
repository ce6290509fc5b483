// F-9: proxy lines: their grammar and the place at which a line goes wrong. Definitions and laws, in specs/ and proofs/; there is no function.

#![tactic(auto)]
