// Document 01, "The code grammar": `ML` or `MR`, then `{n{m}}{Z}{,}{C, D, E, M or N}{$}{(fill num)}`.
#![tactic(auto, unfolding(crate::specs::Places::choose_or, crate::specs::Places::this))]

ghost use Rattle.std.specs.Prelude.{◌≡◌};
ghost use Rattle.std.proofs.Math.Option.{some};
ghost use Rattle.readers.specs.Answers.{read};
ghost use Rattle.readers.specs.Reading.{scales, credit_letter, fill_field, fill_width, fill_part, mask_code};

use crate::Scales;
use crate::places::{digit, flag, num, peek, this};
use codes::{Conversion, Credit, Fill, Mask};
use paper::{Read, Refusal};

// "m absent is n, n absent is 0"
fn scales(code: &[u8], at: usize) -> Read<Scales>
    ensures { some ((result.value.decimals, result.value.scale), result.next) ≡ scales code.now at }
{
    let n = digit(code, at).unwrap_or(Read { value: 0, next: at });
    let m = digit(code, n.next).unwrap_or(n);
    Read {
        value: Scales {
            decimals: n.value,
            scale: m.value,
        },
        next: m.next,
    }
}

// "{C, D, E, M or N}"
fn credit_letter(code: &[u8], at: usize) -> Read<Option<Credit>>
    ensures { some (result.value, result.next) ≡ credit_letter code.now at }
{
    let ahead = peek(code, at);
    let credit = match ahead.value {
        b'C' => Credit::Credit,
        b'D' => Credit::Debit,
        b'E' => Credit::Enclosed,
        b'M' => Credit::Trailing,
        b'N' => Credit::Suppressed,
        _ => {
            return Read {
                value: None,
                next: at,
            };
        }
    };
    Read {
        value: Some(credit),
        next: ahead.next,
    }
}

// `num)`, "this num 1 to 99"
fn fill_field(code: &[u8], at: usize, byte: u8) -> Result<Read<Option<Fill>>, Refusal>
    ensures { result ≡ read (fill_field byte code.now at) }
{
    let num = num(code, at)?;
    let width = num.value;
    if !(1..=99).contains(&width) {
        return Err(Refusal::NotInGrammar);
    }
    let close = this(code, num.next, b')')?;
    Ok(Read {
        value: Some(Fill { byte, width }),
        next: close.next,
    })
}

// "fill `#`, `*` or `%`": a blank, an asterisk or a zero
fn fill_width(code: &[u8], at: usize) -> Result<Read<Option<Fill>>, Refusal>
    ensures { result ≡ read (fill_width code.now at) }
{
    let ahead = peek(code, at);
    let byte = match ahead.value {
        b'#' => b' ',
        b'*' => b'*',
        b'%' => b'0',
        _ => return Err(Refusal::NotInGrammar),
    };
    fill_field(code, ahead.next, byte)
}

// `{(fill num)}`
fn fill_part(code: &[u8], at: usize) -> Result<Read<Option<Fill>>, Refusal>
    ensures { result ≡ read (fill_part code.now at) }
{
    let ahead = peek(code, at);
    match ahead.value {
        b'(' => fill_width(code, ahead.next),
        _ => Ok(Read {
            value: None,
            next: at,
        }),
    }
}

// What follows `ML` or `MR`.
#[tactic(auto, unfolding(crate::specs::Reading::mask_code))]
pub(crate) fn mask_code(code: &[u8], at: usize, left: bool) -> Result<Read<Conversion>, Refusal>
    ensures { result ≡ read (mask_code left code.now at) }
{
    let scales = scales(code, at);
    let zero = flag(code, scales.next, b'Z');
    let comma = flag(code, zero.next, b',');
    let credits = credit_letter(code, comma.next);
    let dollar = flag(code, credits.next, b'$');
    let fill = fill_part(code, dollar.next)?;
    Ok(Read {
        value: Conversion::Mask(Mask {
            left,
            decimals: scales.value.decimals,
            scale: scales.value.scale,
            blank_zero: zero.value,
            commas: comma.value,
            credits: credits.value,
            dollar: dollar.value,
            filled: fill.value,
        }),
        next: fill.next,
    })
}
