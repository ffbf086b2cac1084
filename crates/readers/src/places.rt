// One byte ahead, the numerals, and a literal's closing quote.
ghost use Rattle.std.specs.Prelude.{◌≡◌, ◌≤◌};
ghost use Rattle.std.proofs.Math.Option.{some};
ghost use Rattle.readers.specs.Places.{Peeked, this, flag, digit, more_digits, numeral, num, quoted};
ghost use Rattle.readers.specs.Answers.{read};

use paper::{Mark, Read, Refusal};

// Past the end stands the segment mark, which no reader takes: so every reader stops there.
#[tactic(auto, unfolding(crate::specs::Places::byte_at, crate::specs::Places::after))]
pub fn peek(code: &[u8], at: usize) -> Read<u8>
    ensures { Peeked code.now at result.value result.next }
{
    match code.get(at) {
        Some(byte) => Read {
            value: *byte,
            next: at + 1,
        },
        None => Read {
            value: Mark::SEGMENT.byte,
            next: at,
        },
    }
}

// This byte and no other.
#[tactic(auto, unfolding(crate::specs::Places::choose_or, crate::specs::Places::this))]
pub fn this(code: &[u8], at: usize, byte: u8) -> Result<Read<()>, Refusal>
    ensures { result ≡ read (this byte code.now at) }
{
    let ahead = peek(code, at);
    if ahead.value != byte {
        return Err(Refusal::NotInGrammar);
    }
    Ok(Read {
        value: (),
        next: ahead.next,
    })
}

// Whether an optional byte stands there.
#[tactic(auto, unfolding(crate::specs::Places::choose_or, crate::specs::Places::flag))]
pub(crate) fn flag(code: &[u8], at: usize, byte: u8) -> Read<bool>
    ensures { some (result.value, result.next) ≡ flag byte code.now at }
{
    let ahead = peek(code, at);
    let value = ahead.value == byte;
    let next = if value { ahead.next } else { at };
    Read { value, next }
}

#[tactic(auto, unfolding(crate::specs::Places::digit, paper::specs::Bytes::is_digit, paper::specs::Bytes::digit_value))]
pub fn digit(code: &[u8], at: usize) -> Result<Read<u64>, Refusal>
    ensures { result ≡ read (digit code.now at) }
{
    let ahead = peek(code, at);
    // document 01's form: matches on bytes with ranges
    match ahead.value {
        b'0'..=b'9' => Ok(Read {
            value: u64::from(ahead.value - b'0'),
            next: ahead.next,
        }),
        _ => Err(Refusal::NotInGrammar),
    }
}

// Up to `most` more digits.
pub(crate) fn more_digits(code: &[u8], first: Read<u64>, most: u64) -> Read<u64>
    requires { (first.value ≤ 9) × (most ≤ 4) }
    ensures { some (result.value, result.next) ≡ more_digits most first.value code.now first.next }
{
    let mut number = first;
    for _ in 0..most {
        let Ok(d) = digit(code, number.next) else {
            return number;
        };
        number = Read {
            value: number.value * 10 + d.value,
            next: d.next,
        };
    }
    number
}

// One digit, and up to `most` more.
#[tactic(auto, unfolding(crate::specs::Places::numeral))]
pub fn numeral(code: &[u8], at: usize, most: u64) -> Result<Read<u64>, Refusal>
    requires { most ≤ 4 }
    ensures { result ≡ read (numeral most code.now at) }
{
    let first = digit(code, at)?;
    Ok(more_digits(code, first, most))
}

// ""num" is 1 to 4 digits"
pub(crate) fn num(code: &[u8], at: usize) -> Result<Read<u64>, Refusal>
    ensures { result ≡ read (num code.now at) }
{
    numeral(code, at, 3)
}

// "zero or more bytes in `'` or `"`, without that quote": how many, and the place after the quote
pub fn quoted(code: &[u8], from: usize, quote: u8) -> Result<Read<usize>, Refusal>
    ensures { result ≡ read (quoted quote code.now from) }
{
    let rest = &code[from.min(code.len())..];
    let Some(len) = rest.iter().position(|byte| *byte == quote) else {
        return Err(Refusal::NotInGrammar);
    };
    Ok(Read {
        value: len,
        next: from + len + 1,
    })
}
