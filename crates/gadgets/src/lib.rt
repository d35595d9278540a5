// The public gadgets. None has a `requires`: bad arguments are refused by number, and a refusal leaves the output slice as it was, but for number 5 of the
// polynomial sampler, which sets it to zeros.
#![tactic(auto)]

pub use conversions::{to_arithmetic, to_mod_q};
pub use decomposes::decompose;
pub use gate::{Answer, Decomposed, Judged};
pub use judges::verdict;
pub use refreshes::{refresh, refresh_boolean};
pub use samplers::{sample, sample_polynomial};
pub use shifts::{shift, to_boolean};
pub use widens::widen;
