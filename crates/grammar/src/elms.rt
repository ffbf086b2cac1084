// Document 01, "The code grammar": an elm of F, read forward: nothing is cut at `;` or `)` first.
#![tactic(auto, unfolding(readers::specs::Places::choose_or, readers::specs::Places::this))]

ghost use Rattle.std.specs.Prelude.{◌≡◌};
ghost use Rattle.std.proofs.Math.Option.{some};
ghost use Rattle.readers.specs.Answers.{read};
ghost use Rattle.grammar.specs.Reading.{
  repeats,
  attribute_elm,
  literal_elm,
  previous_elm,
  multiply_elm,
  bracket_elm,
  converting_elm,
  single_elm,
  longer_elm,
  elm,
};

use codes::{Arithmetic, Elm, Operand, Operator, Relation, Repeat};
use paper::{Read, Refusal};
use readers::conversions::conversion;
use readers::places::{digit, numeral, peek, quoted, this};

// "then nothing, `R` or `RR`": what follows an attribute's number
fn repeats(code: &[u8], at: usize) -> Read<Repeat>
    ensures { some (result.value, result.next) ≡ repeats code.now at }
{
    let first = peek(code, at);
    if first.value != b'R' {
        return Read {
            value: Repeat::Each,
            next: at,
        };
    }
    let second = peek(code, first.next);
    if second.value != b'R' {
        return Read {
            value: Repeat::FirstValue,
            next: first.next,
        };
    }
    Read {
        value: Repeat::FirstSubvalue,
        next: second.next,
    }
}

// An attribute, after its number.
fn attribute_elm(code: &[u8], at: usize, number: u64) -> Result<Read<Elm>, Refusal>
    ensures { result ≡ read (attribute_elm number code.now at) }
{
    let repeats = repeats(code, at);
    Ok(Read {
        value: Elm::Push(Operand::Attribute {
            number,
            repeat: repeats.value,
        }),
        next: repeats.next,
    })
}

// "zero or more bytes in `'` or `"`, without that quote": the place of the bytes, not a copy
fn literal_elm(code: &[u8], start: usize, quote: u8) -> Result<Read<Elm>, Refusal>
    ensures { result ≡ read (literal_elm quote code.now start) }
{
    let literal = quoted(code, start, quote)?;
    Ok(Read {
        value: Elm::Push(Operand::Literal {
            start,
            len: literal.value,
        }),
        next: literal.next,
    })
}

// `PV` of `LPV`
fn previous_elm(code: &[u8], at: usize) -> Result<Read<Elm>, Refusal>
    ensures { result ≡ read (previous_elm code.now at) }
{
    let p = this(code, at, b'P')?;
    let v = this(code, p.next, b'V')?;
    Ok(Read {
        value: Elm::Push(Operand::Previous),
        next: v.next,
    })
}

// "`*` or `*` and a digit"
fn multiply_elm(code: &[u8], at: usize) -> Result<Read<Elm>, Refusal>
    ensures { result ≡ read (multiply_elm code.now at) }
{
    let digit = digit(code, at).unwrap_or(Read { value: 0, next: at });
    Ok(Read {
        value: Elm::Binary(Operator::Arithmetic(Arithmetic::Multiply(digit.value))),
        next: digit.next,
    })
}

// `[]`, or `[` alone
fn bracket_elm(code: &[u8], at: usize) -> Result<Read<Elm>, Refusal>
    ensures { result ≡ read (bracket_elm code.now at) }
{
    let ahead = peek(code, at);
    match ahead.value {
        b']' => Ok(Read {
            value: Elm::Substring,
            next: ahead.next,
        }),
        _ => Ok(Read {
            value: Elm::Binary(Operator::Relate(Relation::AtMost)),
            next: at,
        }),
    }
}

// "or any one code below in parentheses"
fn converting_elm(code: &[u8], at: usize) -> Result<Read<Elm>, Refusal>
    ensures { result ≡ read (converting_elm code.now at) }
{
    let conversion = conversion(code, at)?;
    let close = this(code, conversion.next, b')')?;
    Ok(Read {
        value: Elm::Convert(conversion.value),
        next: close.next,
    })
}

// `/` `R` `+` `-` `:` `_` `P`; `=` `#` `>` `<` `]`
fn single_elm(code: &[u8], at: usize) -> Result<Read<Elm>, Refusal>
    ensures { result ≡ read (single_elm code.now at) }
{
    let ahead = peek(code, at);
    let value = match ahead.value {
        b'/' => Elm::Binary(Operator::Arithmetic(Arithmetic::Divide)),
        b'R' => Elm::Binary(Operator::Arithmetic(Arithmetic::Rest)),
        b'+' => Elm::Binary(Operator::Arithmetic(Arithmetic::Add)),
        b'-' => Elm::Binary(Operator::Arithmetic(Arithmetic::Subtract)),
        b':' => Elm::Binary(Operator::Concatenate),
        b'_' => Elm::Exchange,
        b'P' => Elm::Duplicate,
        b'=' => Elm::Binary(Operator::Relate(Relation::Equal)),
        b'#' => Elm::Binary(Operator::Relate(Relation::Unequal)),
        b'>' => Elm::Binary(Operator::Relate(Relation::Greater)),
        b'<' => Elm::Binary(Operator::Relate(Relation::Lesser)),
        b']' => Elm::Binary(Operator::Relate(Relation::AtLeast)),
        _ => return Err(Refusal::NotInGrammar),
    };
    Ok(Read {
        value,
        next: ahead.next,
    })
}

// The elms of more bytes, by the first.
fn longer_elm(code: &[u8], at: usize) -> Result<Read<Elm>, Refusal>
    ensures { result ≡ read (longer_elm code.now at) }
{
    let ahead = peek(code, at);
    match ahead.value {
        b'\'' => literal_elm(code, ahead.next, b'\''),
        b'"' => literal_elm(code, ahead.next, b'"'),
        b'L' => previous_elm(code, ahead.next),
        b'*' => multiply_elm(code, ahead.next),
        b'[' => bracket_elm(code, ahead.next),
        b'(' => converting_elm(code, ahead.next),
        _ => single_elm(code, at),
    }
}

// The elm at a place of its code.
#[tactic(auto, unfolding(crate::specs::Reading::elm))]
pub fn elm(code: &[u8], at: usize) -> Result<Read<Elm>, Refusal>
    ensures { result ≡ read (elm code.now at) }
{
    let Ok(number) = numeral(code, at, 2) else {
        return longer_elm(code, at);
    };
    attribute_elm(code, number.next, number.value)
}
