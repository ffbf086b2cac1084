// Document 01 as definitions (specs/), the laws that speak of the definitions alone (proofs/),
// and, in code, what every crate above shares: mark bytes, size limits, refusals, addresses, and what a reader hands back.
// What document 01's calls answer is stated by specs/; the specs/ of the other crates only turn it into the forms that their code has.
#![tactic(auto)]

ghost use Rattle.std.specs.Prelude.{◌≡◌, Some};
ghost use Rattle.std.specs.Fmt.{decimal};
ghost use Rattle.paper.specs.Answers.{number_of};
ghost use Rattle.paper.specs.Program.{drawn};

use std::fmt;

// Marks as bytes, which a match can name.
const ATTRIBUTE: u8 = Mark::ATTRIBUTE.byte;

const VALUE: u8 = Mark::VALUE.byte;

const SUBVALUE: u8 = Mark::SUBVALUE.byte;

// A mark: "Marks are bytes of our choosing by Pick custom". What walks by a mark takes one, so that a bare byte is not passed for it.
#[derive(Clone, Copy)]
pub struct Mark {
    pub byte: u8,
}

impl Mark {
    pub const SEGMENT: Mark = Mark { byte: 255 };

    pub const ATTRIBUTE: Mark = Mark { byte: 254 };

    pub const VALUE: Mark = Mark { byte: 253 };

    pub const SUBVALUE: Mark = Mark { byte: 252 };

    pub const BUFFER: Mark = Mark { byte: 251 };

    // "drawn `^` for 254, `]` for 253 and `\` for 252"; any other byte as it is
    #[tactic(auto, unfolding(crate::specs::Program::drawn))]
    pub fn drawn(byte: u8) -> u8
        ensures { result ≡ drawn byte }
    {
        match byte {
            ATTRIBUTE => b'^',
            VALUE => b']',
            SUBVALUE => b'\\',
            _ => byte,
        }
    }
}

// A size limit: document 01, "Sizes".
#[derive(Clone, Copy)]
pub struct Limit {
    pub most: usize,
}

impl Limit {
    pub const RECORD: Limit = Limit { most: 32_768 };

    pub const ID: Limit = Limit { most: 48 };

    pub const CODE: Limit = Limit { most: 512 };

    pub const ENTRY: Limit = Limit { most: 1_024 };

    pub const STACK: Limit = Limit { most: 16 };

    // the least that the scratch must have
    pub const SCRATCH: Limit = Limit {
        most: 20 * Self::ENTRY.most,
    };

    pub const ATTRIBUTE: Limit = Limit { most: 999 };

    pub const POSITION: Limit = Limit { most: 32_768 };

    // a number's digits, and its size
    pub const DIGITS: Limit = Limit { most: 15 };

    pub const NUMBER: Limit = Limit {
        most: 999_999_999_999_999,
    };
}

// Document 01, "Numbers that refusals carry", and document 02: the refusals by name, each with its number.
#[derive(Clone, Copy, PartialEq, Eq)]
pub enum Refusal {
    OverLongRecord = 1,
    BadByte = 2,
    BadId = 3,
    BadAddress = 4,
    OverLongCode = 5,
    NotInGrammar = 6,
    StackFault = 7,
    ShortScratch = 8,
    OverLongEntry = 9,
    OutOfRange = 10,
    ZeroDivisor = 11,
    NotConvertible = 12,
    MarkFromHex = 13,
    WiderThanMask = 14,
    OverBudget = 15,
    ShortOutput = 16,
    MarkInElement = 17,
    LeftOverEntries = 18,
}

impl Refusal {
    pub fn number(self) -> u64
        ensures { result ≡ number_of self }
    {
        self as u64
    }
}

// As the paper writes it: by its number.
impl fmt::Display for Refusal {
    ghost output = { λ r. Some (decimal (number_of r)) };

    fn fmt<W: fmt::Write>(&self, f: &mut fmt::Formatter<W>) -> fmt::Result {
        let number = self.number();
        write!(f, "{number}")
    }
}

// "An address is (a, v, s)": any three numbers, lawful or not.
#[derive(Clone, Copy)]
pub struct Address {
    pub a: u64,
    pub v: u64,
    pub s: u64,
}

// What a reader read, and the place after it. It is written out where it is made: so the proofs see its parts.
#[derive(Clone, Copy)]
pub struct Read<T> {
    pub value: T,
    pub next: usize,
}
