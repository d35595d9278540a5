#![tactic(auto)]

// No code: the numbers that the other crates speak of. Definitions are in specs/, laws in proofs/.
