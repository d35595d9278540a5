#![tactic(auto)]

// No code: Boolean shares to arithmetic ones. Definitions, as document 01 has them, are in specs/, laws in proofs/.
