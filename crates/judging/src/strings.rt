// Document 01, "The code grammar": judging one code, and a code string.
ghost use Rattle.std.specs.Prelude.{◌≡◌, false, ◌≤◌, length};
ghost use Rattle.paper.specs.Bytes.{any};
ghost use Rattle.paper.specs.Answers.{told};
ghost use Rattle.paper.specs.Sizes.{is_mark, value_mark};
ghost use Rattle.paper.specs.Records.{split};
ghost use Rattle.paper.specs.Checking.{judged, judged_all};
ghost use Rattle.grammar.specs.Heads.{elms_from};
ghost use Rattle.judging.specs.Tallies.{none_yet};
ghost use Rattle.judging.specs.Verdicts.{finished, judged_of, stray, verdict_in, verdict_of};

use crate::tallies::{conversion_kind, judgement, one_step, tally_after};
use crate::{BadCode, Counts, Tally};
use grammar::Head;
use grammar::elms::elm;
use grammar::heads::head;
use lent::first_within;
use paper::{Mark, Refusal};

// The elms of an F code: 6 is decided on the whole of it, and 7 and 18 only then.
fn judge_elms(code: &[u8], first: usize) -> Result<Counts, Refusal>
    requires { first ≤ length code.now }
    ensures { told result ≡ finished (elms_from code.now first) none_yet }
{
    // a loop: only an elm's reader says where the next begins
    let mut at = first;
    let mut tally = Tally::NONE_YET;
    loop {
        let read = elm(code, at)?;
        tally = tally_after(tally, read.value);
        if read.next == code.len() {
            return judgement(tally);
        }
        if code[read.next] != b';' {
            return Err(Refusal::NotInGrammar);
        }
        at = read.next + 1;
    }
}

// One whole code, in which no mark stands.
fn judge(code: &[u8]) -> Result<Counts, Refusal>
    requires { any is_mark code.now ≡ false }
    ensures { told result ≡ judged_of (judged code.now) }
{
    match head(code)? {
        Head::Function { first } => judge_elms(code, first),
        Head::Single(conversion) => Ok(one_step(conversion_kind(conversion))),
    }
}

// "Bytes 251, 252, 254, 255 and an empty code are 6": whether such a byte stands there, where a scan for marks stopped.
#[tactic(auto, unfolding(crate::specs::Verdicts::stray))]
fn stray(code: &[u8], at: usize) -> bool
    ensures { result ≡ stray code.now at }
{
    at < code.len() && code[at] != Mark::VALUE.byte
}

// "then the first bad code, 6 or 7", or 18, "with that code's number from 1"
pub(crate) fn check_codes(code: &[u8]) -> Result<Counts, BadCode>
    ensures { verdict_in result ≡ verdict_of (judged_all 1 (split value_mark code.now)) }
{
    // a loop: one scan tells where a code ends and that no other mark stands in it, which `split` and a scan of each code do in two
    let mut at = 0;
    let mut number = 1;
    let mut counts = Counts::NONE;
    loop {
        let end = first_within(code, at, code.len(), Mark::BUFFER.byte, Mark::SEGMENT.byte);
        if stray(code, end) {
            return Err(BadCode {
                refusal: Refusal::NotInGrammar,
                code: number,
            });
        }
        let more = judge(&code[at..end]).map_err(|refusal| BadCode {
            refusal,
            code: number,
        })?;
        counts = counts + more;
        if end == code.len() {
            return Ok(counts);
        }
        at = end + 1;
        number += 1;
    }
}
