// Document 01, "The code grammar": D, and the codes other than F by their letters.
ghost use Rattle.std.specs.Prelude.{◌≡◌};
ghost use Rattle.paper.specs.Grammar.{is_separator};
ghost use Rattle.readers.specs.Answers.{read, conversion_of};
ghost use Rattle.readers.specs.Reading.{date_after, date_code, masking_code, conversion};

use crate::masking::mask_code;
use crate::patterns::pattern_code;
use crate::places::peek;
use crate::plains::{character_code, extract_code, group_code, length_code};
use codes::{Conversion, Plain};
use paper::{Read, Refusal};

// "s a byte 32 to 126, no letter, digit, parenthesis or semicolon"; "Letters are ASCII."
#[rattlefmt::skip]
#[tactic(auto, unfolding(
    paper::specs::Grammar::is_separator, paper::specs::Bytes::is_letter, paper::specs::Bytes::is_upper,
    paper::specs::Bytes::is_lower, paper::specs::Bytes::is_digit,
))]
fn separates_date(byte: u8) -> bool
    ensures { result ≡ is_separator byte }
{
    // document 01's form: matches on bytes with ranges
    match byte {
        b'(' | b')' | b';' | b'0'..=b'9' | b'A'..=b'Z' | b'a'..=b'z' => false,
        b' '..=b'~' => true,
        _ => false,
    }
}

// `{s}`
fn date_after(code: &[u8], at: usize, digits: u64) -> Result<Read<Conversion>, Refusal>
    ensures { result ≡ read (date_after digits code.now at) }
{
    let ahead = peek(code, at);
    let (separator, next) = if separates_date(ahead.value) {
        (Some(ahead.value), ahead.next)
    } else {
        (None, at)
    };
    Ok(Read {
        value: Conversion::Date { digits, separator },
        next,
    })
}

// `D{n}{s}`, "n 0 to 4"; n absent is 4 (001, 4.4).
#[tactic(auto, unfolding(paper::specs::Bytes::digit_value))]
fn date_code(code: &[u8], at: usize) -> Result<Read<Conversion>, Refusal>
    ensures { result ≡ read (date_code code.now at) }
{
    let ahead = peek(code, at);
    match ahead.value {
        b'0'..=b'4' => date_after(code, ahead.next, u64::from(ahead.value - b'0')),
        _ => date_after(code, at, 4),
    }
}

// A plain code as a code other than F.
fn plain(read: Result<Read<Plain>, Refusal>) -> Result<Read<Conversion>, Refusal>
    ensures { result ≡ conversion_of read }
{
    let plain = read?;
    Ok(Read {
        value: Conversion::Plain(plain.value),
        next: plain.next,
    })
}

// `MC..`, `MX`, `MY`, `ML..`, `MR..`
#[tactic(auto, unfolding(crate::specs::Places::choose_or, crate::specs::Reading::masking_code))]
fn masking_code(code: &[u8], at: usize) -> Result<Read<Conversion>, Refusal>
    ensures { result ≡ read (masking_code code.now at) }
{
    let ahead = peek(code, at);
    let next = ahead.next;
    match ahead.value {
        b'C' => plain(character_code(code, next)),
        b'X' => Ok(Read {
            value: Conversion::Plain(Plain::Hex),
            next,
        }),
        b'Y' => Ok(Read {
            value: Conversion::Plain(Plain::Unhex),
            next,
        }),
        b'L' => mask_code(code, next, true),
        b'R' => mask_code(code, next, false),
        _ => Err(Refusal::NotInGrammar),
    }
}

// A code other than F.
#[tactic(auto, unfolding(crate::specs::Places::choose_or, crate::specs::Reading::conversion))]
pub fn conversion(code: &[u8], at: usize) -> Result<Read<Conversion>, Refusal>
    ensures { result ≡ read (conversion code.now at) }
{
    let ahead = peek(code, at);
    let next = ahead.next;
    match ahead.value {
        b'G' => plain(group_code(code, next)),
        b'T' => plain(extract_code(code, next)),
        b'L' => plain(length_code(code, next)),
        b'M' => masking_code(code, next),
        b'D' => date_code(code, next),
        b'P' => pattern_code(code, next),
        _ => Err(Refusal::NotInGrammar),
    }
}
