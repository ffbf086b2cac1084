// Document 01, "The code grammar", and document 02, L1, as values: a code other than F, and an elm whose conversion case carries such a code.
// Every case has its meaning in specs/Meaning.antt, the paper's own code or elm; contracts above speak through that.
// A literal is a place in the code string and not a copy, and so are the patterns of a P code.
#![tactic(auto)]

// `=` `#` `>` `<` `]` `[`
#[derive(Clone, Copy)]
pub enum Relation {
    Equal,
    Unequal,
    Greater,
    Lesser,
    AtLeast,
    AtMost,
}

// `*` and `*n` (`*` is `*0`), `/` `R` `+` `-`.
#[derive(Clone, Copy)]
pub enum Arithmetic {
    Multiply(u64),
    Divide,
    Rest,
    Add,
    Subtract,
}

// The elms that take two entries and put one.
#[derive(Clone, Copy)]
pub enum Operator {
    Arithmetic(Arithmetic),
    Concatenate,
    Relate(Relation),
}

// "{C, D, E, M or N}"
#[derive(Clone, Copy)]
pub enum Credit {
    Credit,
    Debit,
    Enclosed,
    Trailing,
    Suppressed,
}

// `(fill num)`: the byte that fills and the width.
#[derive(Clone, Copy)]
pub struct Fill {
    pub byte: u8,
    pub width: u64,
}

// `ML` or `MR`, then `{n{m}}{Z}{,}{C, D, E, M or N}{$}{(fill num)}`.
#[derive(Clone, Copy)]
pub struct Mask {
    pub left: bool,
    pub decimals: u64,
    pub scale: u64,
    pub blank_zero: bool,
    pub commas: bool,
    pub credits: Option<Credit>,
    pub dollar: bool,
    pub filled: Option<Fill>,
}

// G, T, L, MC, MX and MY.
#[derive(Clone, Copy)]
pub enum Plain {
    Group {
        skip: u64,
        separator: u8,
        count: u64,
    },
    Extract {
        start: u64,
        count: u64,
    },
    Measure,
    Admit {
        least: u64,
        most: u64,
    },
    Letters,
    OtherThanLetters,
    Numerals,
    OtherThanNumerals,
    Upper,
    Lower,
    Title,
    Hex,
    Unhex,
}

// `N`, `A` or `X`.
#[derive(Clone, Copy)]
pub enum Class {
    Numeric,
    Alpha,
    Character,
}

// `nN`, `nA`, `nX`, or a quoted literal.
#[derive(Clone, Copy)]
pub enum Test {
    SoMany { count: u64, class: Class },
    Literal { start: usize, len: usize },
}

// A code other than F. Of D its `{s}`, if it has one; of a P code: where its patterns begin, and the tests in all of them.
#[derive(Clone, Copy)]
pub enum Conversion {
    Plain(Plain),
    Mask(Mask),
    Date { digits: u64, separator: Option<u8> },
    Patterns { start: usize, tests: u64 },
}

// An attribute's number is followed by nothing, `R` or `RR`.
#[derive(Clone, Copy)]
pub enum Repeat {
    Each,
    FirstValue,
    FirstSubvalue,
}

// What an elm may push.
#[derive(Clone, Copy)]
pub enum Operand {
    Attribute { number: u64, repeat: Repeat },
    Literal { start: usize, len: usize },
    Previous,
}

#[derive(Clone, Copy)]
pub enum Elm {
    Push(Operand),
    Binary(Operator),
    Substring,
    Exchange,
    Duplicate,
    Convert(Conversion),
}
