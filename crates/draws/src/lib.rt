#![tactic(auto)]

// No code: what a program of draws is, and what holds of every one. Definitions are in specs/, laws in proofs/.
