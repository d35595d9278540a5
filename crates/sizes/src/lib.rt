#![tactic(auto)]

// No code: widening, the product, the zero test, and the verdict. Definitions, as document 01 has them, are in specs/, laws in proofs/.
