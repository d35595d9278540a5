#![tactic(auto)]

// No code: Decompose. Definitions, as document 01 and FIPS 204 have them, are in specs/, laws in proofs/.
