#![tactic(auto)]

// No code: the public gadgets, in specs/Gadgets.antt, and the three demands of them. Statements are in specs/, theorems in proofs/.
