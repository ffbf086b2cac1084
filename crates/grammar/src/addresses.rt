// A typed address, as line 2 of the program has it (document 01, "Examples on both sides").
ghost use Rattle.std.specs.Prelude.{◌≡◌};
ghost use Rattle.paper.specs.Grammar.{all_read};
ghost use Rattle.paper.specs.Program.{address_form};
ghost use Rattle.grammar.specs.Addresses.{another, address, address_read};
ghost use Rattle.readers.specs.Answers.{read};

use paper::{Address, Read, Refusal};
use readers::places::{numeral, this};

// "numbers of 1 to 5 digits": the digits after the first.
const MORE: u64 = 4;

// A comma and a number.
fn another(text: &[u8], at: usize) -> Result<Read<u64>, Refusal>
    ensures { result ≡ read (another text.now at) }
{
    let comma = this(text, at, b',')?;
    numeral(text, comma.next, MORE)
}

// "three numbers of 1 to 5 digits parted by commas"
#[tactic(auto, unfolding(crate::specs::Addresses::address))]
fn numbers(text: &[u8]) -> Result<Read<Address>, Refusal>
    ensures { result ≡ read (address text.now 0) }
{
    let a = numeral(text, 0, MORE)?;
    let v = another(text, a.next)?;
    let s = another(text, v.next)?;
    Ok(Read {
        value: Address {
            a: a.value,
            v: v.value,
            s: s.value,
        },
        next: s.next,
    })
}

// The whole line; where a number is not there, itself 6, or more follows, the address is 4.
#[tactic(auto, using(crate::proofs::AddressForm::address_is))]
pub fn address(text: &[u8]) -> Result<Address, Refusal>
    ensures { result ≡ address_read (all_read (address_form text.now)) }
{
    match numbers(text) {
        Ok(read) if read.next == text.len() => Ok(read.value),
        _ => Err(Refusal::BadAddress),
    }
}
