#![tactic(auto)]

// No code: a draw that is set anew to a number that is not below its modulus is skipped. The laws are in proofs/.
