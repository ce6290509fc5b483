// F-6: passwords stay in their place: the claim in specs/, its proof in proofs/. There is no function.

#![tactic(auto)]
