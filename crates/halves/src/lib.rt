#![tactic(auto)]

// No code: halving, the shift, arithmetic shares to Boolean ones, and the carries of shares. Definitions, as document 01 has them, are in specs/, laws in
// proofs/.
