#![tactic(auto)]

// No code: modulus switching, and the masks that are sampled by it. Definitions, as document 01 has them, are in specs/, laws in proofs/.
