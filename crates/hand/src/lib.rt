#![tactic(auto)]

// No code: the cases by hand of document 01 as one table, and calls worked by hand. Statements are in specs/, theorems in proofs/.
