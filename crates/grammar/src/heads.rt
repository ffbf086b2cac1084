// Document 01, "The code grammar": what one whole code begins with, and where a code of a string ends.
ghost use Rattle.std.specs.Prelude.{◌≡◌, ◌≤◌, length, drop};
ghost use Rattle.grammar.specs.Heads.{head, head_read, code_end};

use crate::Head;
use lent::first_within;
use paper::{Mark, Refusal};
use readers::conversions::conversion;
use readers::places::{peek, this};

// What one whole code begins with.
#[tactic(auto, unfolding(crate::specs::Heads::head, readers::specs::Places::choose_or, readers::specs::Places::this))]
pub fn head(code: &[u8]) -> Result<Head, Refusal>
    ensures { result ≡ head_read (head code.now) }
{
    match peek(code, 0).value {
        b'F' => {
            this(code, 1, b';')?;
            // 2 each time: the case is public, and the crates above begin at its place without knowing what an F code begins with
            Ok(Head::Function { first: 2 })
        }
        _ => {
            let single = conversion(code, 0)?;
            if single.next != code.len() {
                return Err(Refusal::NotInGrammar);
            }
            Ok(Head::Single(single.value))
        }
    }
}

// "codes parted at every byte 253, inside quotes too": where the code at a place ends.
pub fn code_end(code: &[u8], from: usize) -> usize
    requires { from ≤ length code.now }
    ensures { result ≡ code_end (drop from code.now) from }
{
    first_within(code, from, code.len(), Mark::VALUE.byte, Mark::VALUE.byte)
}
