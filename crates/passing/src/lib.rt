#![tactic(auto)]

// No code: what the self test asks of a call, and that each of its cases passes.
