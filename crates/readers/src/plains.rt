// Document 01, "The code grammar": G, T, L and MC.
#![tactic(auto, unfolding(crate::specs::Places::choose_or))]

ghost use Rattle.std.specs.Prelude.{◌≡◌};
ghost use Rattle.readers.specs.Answers.{read};
ghost use Rattle.readers.specs.Reading.{
  separates,
  group_after,
  group_code,
  extract_from,
  extract_code,
  admit_from,
  length_after,
  length_code,
  except_code,
  character_code,
};

use crate::places::{num, peek};
use codes::Plain;
use paper::{Mark, Read, Refusal};

// The marks as bounds of a range of bytes.
const FIRST_MARK: u8 = Mark::BUFFER.byte;

const LAST_MARK: u8 = Mark::SEGMENT.byte;

// "x any byte not a digit or mark"
#[tactic(auto, unfolding(crate::specs::Reading::separates, paper::specs::Bytes::is_digit, paper::specs::Sizes::is_mark))]
fn separates(byte: u8) -> bool
    ensures { result ≡ separates byte }
{
    // document 01's form: matches on bytes with ranges
    !matches!(byte, b'0'..=b'9' | FIRST_MARK..=LAST_MARK)
}

// `x num`, "second num at least 1"
fn group_after(code: &[u8], at: usize, skip: u64) -> Result<Read<Plain>, Refusal>
    ensures { result ≡ read (group_after skip code.now at) }
{
    let ahead = peek(code, at);
    let separator = ahead.value;
    if !separates(separator) {
        return Err(Refusal::NotInGrammar);
    }
    let count = num(code, ahead.next)?;
    if count.value == 0 {
        return Err(Refusal::NotInGrammar);
    }
    Ok(Read {
        value: Plain::Group {
            skip,
            separator,
            count: count.value,
        },
        next: count.next,
    })
}

// `G{num}x num`
pub(crate) fn group_code(code: &[u8], at: usize) -> Result<Read<Plain>, Refusal>
    ensures { result ≡ read (group_code code.now at) }
{
    let skip = num(code, at).unwrap_or(Read { value: 0, next: at });
    group_after(code, skip.next, skip.value)
}

// `num,num`, "a start at least 1"
fn extract_from(code: &[u8], at: usize, start: u64) -> Result<Read<Plain>, Refusal>
    ensures { result ≡ read (extract_from start code.now at) }
{
    if start == 0 {
        return Err(Refusal::NotInGrammar);
    }
    let count = num(code, at)?;
    Ok(Read {
        value: Plain::Extract {
            start,
            count: count.value,
        },
        next: count.next,
    })
}

// `T num` or `T num,num`
pub(crate) fn extract_code(code: &[u8], at: usize) -> Result<Read<Plain>, Refusal>
    ensures { result ≡ read (extract_code code.now at) }
{
    let first = num(code, at)?;
    let ahead = peek(code, first.next);
    if ahead.value == b',' {
        return extract_from(code, ahead.next, first.value);
    }
    Ok(Read {
        value: Plain::Extract {
            start: 1,
            count: first.value,
        },
        next: first.next,
    })
}

// `num,num`
fn admit_from(code: &[u8], at: usize, least: u64) -> Result<Read<Plain>, Refusal>
    ensures { result ≡ read (admit_from least code.now at) }
{
    let most = num(code, at)?;
    Ok(Read {
        value: Plain::Admit {
            least,
            most: most.value,
        },
        next: most.next,
    })
}

// `L num` or `L num,num`
fn length_after(code: &[u8], at: usize, first: u64) -> Result<Read<Plain>, Refusal>
    ensures { result ≡ read (length_after first code.now at) }
{
    let ahead = peek(code, at);
    if ahead.value == b',' {
        return admit_from(code, ahead.next, first);
    }
    Ok(Read {
        value: Plain::Admit {
            least: 0,
            most: first,
        },
        next: at,
    })
}

// `L`, `L num`, `L num,num`
pub(crate) fn length_code(code: &[u8], at: usize) -> Result<Read<Plain>, Refusal>
    ensures { result ≡ read (length_code code.now at) }
{
    let Ok(first) = num(code, at) else {
        return Ok(Read {
            value: Plain::Measure,
            next: at,
        });
    };
    length_after(code, first.next, first.value)
}

// `MC/A` `MC/N`
fn except_code(code: &[u8], at: usize) -> Result<Read<Plain>, Refusal>
    ensures { result ≡ read (except_code code.now at) }
{
    let ahead = peek(code, at);
    let value = match ahead.value {
        b'A' => Plain::OtherThanLetters,
        b'N' => Plain::OtherThanNumerals,
        _ => return Err(Refusal::NotInGrammar),
    };
    Ok(Read {
        value,
        next: ahead.next,
    })
}

// `MCA` `MC/A` `MCN` `MC/N` `MCU` `MCL` `MCT`
pub(crate) fn character_code(code: &[u8], at: usize) -> Result<Read<Plain>, Refusal>
    ensures { result ≡ read (character_code code.now at) }
{
    let ahead = peek(code, at);
    let value = match ahead.value {
        b'A' => Plain::Letters,
        b'N' => Plain::Numerals,
        b'/' => return except_code(code, ahead.next),
        b'U' => Plain::Upper,
        b'L' => Plain::Lower,
        b'T' => Plain::Title,
        _ => return Err(Refusal::NotInGrammar),
    };
    Ok(Read {
        value,
        next: ahead.next,
    })
}
