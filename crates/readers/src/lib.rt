// Document 01, "The code grammar", and document 02, L1: one byte ahead, numbers, and the codes other than F, read by place.
// Readers look one byte ahead and commit; each answers what it read with the place after it, or that it is not in the grammar.
// A reader takes a code and a place, not one struct of both: a place by value makes each contract one equality.
// Every contract is an equality with a definition that proofs/ tie to crates/paper.
#![tactic(auto)]

pub mod conversions;
mod masking;
pub mod patterns;
pub mod places;
mod plains;

// `{n{m}}`
#[derive(Clone, Copy)]
pub(crate) struct Scales {
    pub decimals: u64,
    pub scale: u64,
}
