// Document 01, "The code grammar" and "Steps" (A and B), and document 02, L1 (P and T) and L5 (18): checking a code string, code by code, and the
// steps that it counts.
// Every contract is an equality with a definition that proofs/ tie to crates/paper.
#![tactic(auto)]

mod strings;
mod tallies;

ghost use Rattle.std.specs.Prelude.{◌≡◌};
ghost use Rattle.paper.specs.Checking.{check, report};
ghost use Rattle.judging.specs.Verdicts.{verdict_in, verdict_of, report_in};

use paper::{Limit, Refusal};

// Steps by their kind: "A attribute loads and B other steps", P codes, which B does not count, and the tests in all of them.
#[derive(Clone, Copy)]
pub struct Counts {
    pub loads: u64,
    pub others: u64,
    pub patterns: u64,
    pub tests: u64,
}

impl Counts {
    pub const NONE: Counts = Counts {
        loads: 0,
        others: 0,
        patterns: 0,
        tests: 0,
    };
}

// What a step is counted as: a load, a P code with its tests, or another.
#[derive(Clone, Copy)]
pub(crate) enum Kind {
    Loading,
    Testing(u64),
    Other,
}

// Entries that an elm takes and puts, and what its step is counted as.
#[derive(Clone, Copy)]
pub(crate) struct Shape {
    pub takes: u64,
    pub puts: u64,
    pub kind: Kind,
}

// The elms of an F code so far: the entries held, or the first fault, refusal 7, and the steps. 6 is decided on the whole code, and a fault only then.
#[derive(Clone, Copy)]
pub(crate) struct Tally {
    pub held: Result<u64, Refusal>,
    pub counts: Counts,
}

impl Tally {
    // "F starts with an empty stack."
    pub(crate) const NONE_YET: Tally = Tally {
        held: Ok(0),
        counts: Counts::NONE,
    };
}

// A refusal, "with the number of the first bad code".
#[derive(Clone, Copy)]
pub struct BadCode {
    pub refusal: Refusal,
    pub code: u64,
}

// "Checking: 5 (with code number 0), then the first bad code .. accepted, it gives A and B", and P and T with them.
pub fn check(code: &[u8]) -> Result<Counts, BadCode>
    ensures value { verdict_in result ≡ verdict_of (check code.now) }
    ensures result_value { report_in result ≡ report (check code.now) }
{
    if Limit::CODE.most < code.len() {
        return Err(BadCode {
            refusal: Refusal::OverLongCode,
            code: 0,
        });
    }
    if code.is_empty() {
        return Ok(Counts::NONE);
    }
    strings::check_codes(code)
}
