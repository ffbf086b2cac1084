// Document 01, "The code grammar": reading F and its elms, what a code begins with and where it ends, and typed addresses.
// The readers go on from those of crates/readers, and answer as they do.
// A literal is a place in the code, not a copy. Every contract is an equality with a definition that proofs/ tie to crates/paper.
#![tactic(auto)]

pub mod addresses;
pub mod elms;
pub mod heads;

use codes::Conversion;

// What one whole code begins with.
#[derive(Clone, Copy)]
pub enum Head {
    Function { first: usize },
    Single(Conversion),
}
