// Document 01, "A typed date": the day that a text names by a code string that is exactly one D code.
#![tactic(auto)]

ghost use Rattle.std.specs.Prelude.{◌≡◌};
ghost use Rattle.std.proofs.Math.Option.{some};
ghost use Rattle.paper.specs.Answers.{told_by};
ghost use Rattle.paper.specs.Bytes.{Bytes};
ghost use Rattle.paper.specs.Codes.{single};
ghost use Rattle.paper.specs.TypedDates.{typed_by, typed_date};
ghost use Rattle.numbers.specs.Forms.{whole};
ghost use Rattle.codes.specs.Meaning.{conversion_of};

use codes::Conversion;
use grammar::Head;
use numbers::Number;
use paper::{Limit, Refusal};

// "6 if the string is not exactly one D code", whatever string the code was read from
#[tactic(auto, unfolding(paper::specs::TypedDates::typed_by, codes::specs::Meaning::conversion_of))]
fn typed_by(conversion: Conversion, text: &[u8]) -> Result<Number, Refusal>
    ensures { (string : Bytes) → told_by whole result ≡ typed_by (some (single (conversion_of string conversion))) text.now }
{
    let Conversion::Date { digits, separator } = conversion else {
        return Err(Refusal::NotInGrammar);
    };
    dates::typing::typed_date(text, digits, separator)
}

// "A typed date: 5, then 6 if the string is not exactly one D code, then 12."
pub fn typed_date(code: &[u8], text: &[u8]) -> Result<Number, Refusal>
    ensures { told_by whole result ≡ typed_date code.now text.now }
{
    // these two tests stand in algebra too: shared, they would be a function, a contract and a `?` in place of six lines
    if Limit::CODE.most < code.len() {
        return Err(Refusal::OverLongCode);
    }
    if lent::marked(code) {
        return Err(Refusal::NotInGrammar);
    }
    let Head::Single(conversion) = grammar::heads::head(code)? else {
        return Err(Refusal::NotInGrammar);
    };
    typed_by(conversion, text)
}
