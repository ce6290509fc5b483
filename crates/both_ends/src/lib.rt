// F-3: both ends of a handshake meet: the claim in specs/, its proof in proofs/. There is no function.

#![tactic(auto)]
