// The specification of the format and its calls is in specs/, the theory that follows from it in proofs/; the code has the refusals.
#![tactic(auto)]

pub mod refusal;

pub use refusal::Refusal;
