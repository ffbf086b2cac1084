// Document 01, "What each code gives" (F), and document 02, L3: numeric form, decimal text, and what the operators and `[]` give.
// Every contract is an equality with a definition of crates/paper/specs/Numbers.antt, for all inputs that it takes.
// A number is a sign and a size of at most 15 digits: no sum wraps, and a product out of range is never made.
#![tactic(auto)]

mod comparing;
pub mod entries;
pub mod reading;
mod reckoning;
pub mod writing;

ghost use Rattle.std.specs.Prelude.{◌≡◌, Some};
ghost use Rattle.paper.specs.Numbers.{signed};
ghost use Rattle.numbers.specs.Forms.{whole, printed};

use paper::Limit;
use std::fmt;

// The largest size of a number, as a number has it.
pub const MOST: u64 = Limit::NUMBER.most as u64;

// A whole number. Zero has no sign. Its range is no invariant: sums are made before they are held against the limit (`reading::ranged`).
#[derive(Clone, Copy)]
pub struct Number {
    pub negative: bool,
    pub size: u64,
}

impl Number {
    pub const ZERO: Self = Self {
        negative: false,
        size: 0,
    };

    // a sign and a size; zero has no sign
    #[tactic(auto, unfolding(paper::specs::Numbers::signed))]
    pub fn signed(negative: bool, size: u64) -> Self
        ensures { whole result ≡ signed negative size }
    {
        Self {
            negative: negative & (0 < size),
            size,
        }
    }
}

// A sign and a size, as the programs print a day.
impl fmt::Display for Number {
    ghost output = { λ x. Some (printed x) };

    fn fmt<W: fmt::Write>(&self, f: &mut fmt::Formatter<W>) -> fmt::Result {
        let sign = if self.negative { "-" } else { "" };
        let size = self.size;
        write!(f, "{sign}{size}")
    }
}
