// Document 02, L4: an A code shown as the F code that it stands for.
// One pass over the A code, behind a test for marks: an expression holds operands, an operand in parentheses holds an expression again,
// and each elm is laid behind the F text as soon as its operands are. Every contract is stated by the definitions of specs/.
#![tactic(auto)]

mod expressions;
mod operators;
mod texts;

ghost use Rattle.std.specs.Prelude.{◌≡◌, length, take};
ghost use Rattle.paper.specs.Bytes.{buffer};
ghost use Rattle.paper.specs.Refusals.{given, answer_of};
ghost use Rattle.paper.specs.Answers.{told, told_by, sized};
ghost use Rattle.paper.specs.Converting.{fitted};
ghost use Rattle.algebra.specs.Showing.{spelt_out, lawful_text, shown_text, show};

use crate::texts::Text;
use paper::{Limit, Refusal};
use readers::places::peek;

// "5 for an A code over 512, 6 if not an expression"; its F text, which may be over 512 itself.
fn spelt_out(code: &[u8], text: &mut Text) -> Result<(), Refusal>
    requires { text.old.len ≡ 0 }
    ensures { told_by (λ _. take text.new.len text.new.bytes) result ≡ spelt_out code.now }
{
    if Limit::CODE.most < code.len() {
        return Err(Refusal::OverLongCode);
    }
    if lent::marked(code) {
        return Err(Refusal::NotInGrammar);
    }
    let first = peek(code, 0);
    if first.value != b'A' {
        return Err(Refusal::NotInGrammar);
    }
    text.push(b'F');
    if expressions::expression(code, first.next, text) != Some(code.len()) {
        return Err(Refusal::NotInGrammar);
    }
    Ok(())
}

// "5 if the F text would pass 512 bytes, 7 as the F text earns it": both are the check's.
fn lawful(text: &[u8]) -> Result<(), Refusal>
    ensures { told_by (λ _. text.now) result ≡ lawful_text text.now }
{
    judging::check(text).map_err(|bad| bad.refusal)?;
    Ok(())
}

// The F text of an A code.
fn shown_text(code: &[u8], text: &mut Text) -> Result<(), Refusal>
    requires { text.old.len ≡ 0 }
    ensures { told_by (λ _. take text.new.len text.new.bytes) result ≡ shown_text code.now }
{
    spelt_out(code, text)?;
    lawful(text.as_slice())
}

// An answer in front of the output and zeros behind it, or 16.
fn hand_over(text: &[u8], out: &mut [u8]) -> Result<usize, Refusal>
    ensures value { told result ≡ sized (fitted (length out.old) (given text.now)) }
    ensures out_after { out.new ≡ buffer (length out.old) (answer_of (fitted (length out.old) (given text.now))) }
{
    let len = text.len();
    let room = out.len();
    if room < len {
        lent::clear(out);
        return Err(Refusal::ShortOutput);
    }
    lent::copy_in(text, out, 0);
    lent::fill(out, len, room - len, 0);
    Ok(len)
}

// "5 for an A code over 512, 6 if not an expression, 5 if the F text would pass 512 bytes, 7 as the F text earns it, 16, in that order"
pub fn show(code: &[u8], out: &mut [u8]) -> Result<usize, Refusal>
    ensures answers { told result ≡ sized (show code.now (length out.old)) }
    ensures writes { out.new ≡ buffer (length out.old) (answer_of (show code.now (length out.old))) }
{
    let mut text = Text::EMPTY;
    match shown_text(code, &mut text) {
        Ok(()) => hand_over(text.as_slice(), out),
        Err(refusal) => {
            lent::clear(out);
            Err(refusal)
        }
    }
}
