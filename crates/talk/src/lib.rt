// 01, "Tunnel": what any side of a handshake is, and the law of pieces. The definitions stand in specs/, the laws in proofs/; there is no function.

#![tactic(auto)]
