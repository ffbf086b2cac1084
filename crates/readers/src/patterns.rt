// Document 02, L1: `P` and its patterns. A test is read by its place; patterns are skimmed, for how many tests they have and where they end.
// Its loops are written out: only a reader says where the next test or pattern begins.
ghost use Rattle.std.specs.Prelude.{◌≡◌, length, drop};
ghost use Rattle.paper.specs.Grammar.{tests, pattern, pattern_list};
ghost use Rattle.paper.specs.Patterns.{tests_in};
ghost use Rattle.readers.specs.Answers.{read};
ghost use Rattle.readers.specs.Reading.{count_test, literal_test, quoted_test, test, skimmed, pattern_code};

use crate::places::{numeral, peek, quoted, this};
use codes::{Class, Conversion, Test};
use paper::{Read, Refusal};

// "`nN`, `nA`, `nX`", after n
#[tactic(auto, unfolding(crate::specs::Places::choose_or, crate::specs::Reading::count_test))]
fn count_test(code: &[u8], at: usize, count: u64) -> Result<Read<Test>, Refusal>
    ensures { result ≡ read (count_test count code.now at) }
{
    let ahead = peek(code, at);
    let class = match ahead.value {
        b'N' => Class::Numeric,
        b'A' => Class::Alpha,
        b'X' => Class::Character,
        _ => return Err(Refusal::NotInGrammar),
    };
    Ok(Read {
        value: Test::SoMany { count, class },
        next: ahead.next,
    })
}

// "a quoted literal", in either quote: the place of its bytes, not a copy
#[tactic(auto, unfolding(crate::specs::Places::choose_or, crate::specs::Reading::quoted_test, crate::specs::Reading::literal_test))]
fn quoted_test(code: &[u8], at: usize) -> Result<Read<Test>, Refusal>
    ensures { result ≡ read (quoted_test code.now at) }
{
    let ahead = peek(code, at);
    let quote = ahead.value;
    if quote != b'\'' && quote != b'"' {
        return Err(Refusal::NotInGrammar);
    }
    let start = ahead.next;
    let literal = quoted(code, start, quote)?;
    Ok(Read {
        value: Test::Literal {
            start,
            len: literal.value,
        },
        next: literal.next,
    })
}

// "`nN`, `nA`, `nX`, a quoted literal, n of 1 to 3 digits"
pub fn test(code: &[u8], at: usize) -> Result<Read<Test>, Refusal>
    ensures { result ≡ read (test code.now at) }
{
    let Ok(count) = numeral(code, at, 2) else {
        return quoted_test(code, at);
    };
    count_test(code, count.next, count.value)
}

// "A pattern is one or more tests": how many up to its parenthesis, and the place after that.
fn tests(code: &[u8], from: usize) -> Result<Read<u64>, Refusal>
    ensures { result ≡ read (skimmed length code.now (tests (drop from code.now))) }
{
    let mut count = 0;
    let mut at = from;
    loop {
        at = test(code, at)?.next;
        count += 1;
        let ahead = peek(code, at);
        if ahead.value == b')' {
            return Ok(Read {
                value: count,
                next: ahead.next,
            });
        }
    }
}

// "each in parentheses"
#[tactic(auto, using(crate::proofs::PatternReads::pattern_is), unfolding(crate::specs::Reading::skimmed))]
fn pattern(code: &[u8], at: usize) -> Result<Read<u64>, Refusal>
    ensures { result ≡ read (skimmed length code.now (pattern (drop at code.now))) }
{
    let open = this(code, at, b'(')?;
    tests(code, open.next)
}

// "one or more patterns, .. parted by semicolons": the tests in all of them, and the place after them.
fn pattern_list(code: &[u8], from: usize) -> Result<Read<u64>, Refusal>
    ensures { result ≡ read (skimmed tests_in code.now (pattern_list (drop from code.now))) }
{
    let mut total = 0;
    let mut at = from;
    loop {
        let tests = pattern(code, at)?;
        total += tests.value;
        let ahead = peek(code, tests.next);
        if ahead.value != b';' {
            return Ok(Read {
                value: total,
                next: tests.next,
            });
        }
        at = ahead.next;
    }
}

// What follows `P`.
#[tactic(auto, unfolding(crate::specs::Reading::pattern_code))]
pub(crate) fn pattern_code(code: &[u8], at: usize) -> Result<Read<Conversion>, Refusal>
    ensures { result ≡ read (pattern_code code.now at) }
{
    let tests = pattern_list(code, at)?;
    Ok(Read {
        value: Conversion::Patterns {
            start: at,
            tests: tests.value,
        },
        next: tests.next,
    })
}
