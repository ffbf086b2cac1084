// What a code other than F gives on an element (document 01, "What each code gives"): each is passed to the crate that it belongs to.
// Every answer is written in front of the lent output, or refused with the output as it was.
#![tactic(auto)]

ghost use Rattle.std.specs.Prelude.{◌≡◌, ◌≤◌, length};
ghost use Rattle.paper.specs.Sizes.{code_most, entry_most};
ghost use Rattle.paper.specs.Answers.{told, sized, written};
ghost use Rattle.paper.specs.Texts.{plain_gives};
ghost use Rattle.paper.specs.Steps.{limited, conversion_gives, charged};
ghost use Rattle.codes.specs.Meaning.{plain_of, conversion_of};
ghost use Rattle.codes.specs.Counting.{kind_of};
ghost use Rattle.giving.specs.Bounds.{ConversionWithin, tests_of, charged_most};

use codes::{Conversion, Plain};
use paper::Refusal;
use texts::{Casing, Class};

// G, T, L, MC, MX and MY.
#[tactic(auto, unfolding(codes::specs::Meaning::plain_of, texts::specs::Codes::kept_code, texts::specs::Codes::cased_code))]
fn give_plain(plain: Plain, e: &[u8], out: &mut [u8]) -> Result<usize, Refusal>
    requires { (length e.now ≤ entry_most) × (entry_most ≤ length out.old) }
    ensures value { told result ≡ sized (limited entry_most (plain_gives (plain_of plain) e.now)) }
    ensures out_after { out.new ≡ written out.old (limited entry_most (plain_gives (plain_of plain) e.now)) }
{
    match plain {
        Plain::Group {
            skip,
            separator,
            count,
        } => texts::group(e, skip, separator, count, out),
        Plain::Extract { start, count } => texts::extract(e, start, count, out),
        Plain::Measure => texts::measure(e, out),
        Plain::Admit { least, most } => texts::admit(e, least, most, out),
        Plain::Letters => texts::keep(e, Class::Letters, out),
        Plain::OtherThanLetters => texts::keep(e, Class::OtherThanLetters, out),
        Plain::Numerals => texts::keep(e, Class::Numerals, out),
        Plain::OtherThanNumerals => texts::keep(e, Class::OtherThanNumerals, out),
        Plain::Upper => texts::recase(e, Casing::Upper, out),
        Plain::Lower => texts::recase(e, Casing::Lower, out),
        Plain::Title => texts::recase(e, Casing::Title, out),
        Plain::Hex => texts::hex(e, out),
        Plain::Unhex => texts::unhex(e, out),
    }
}

// What a code other than F gives on an element; `code` is the string that it was read from, which a code may point into.
#[tactic(auto, unfolding(codes::specs::Meaning::conversion_of, paper::specs::Steps::conversion_gives))]
pub fn give(conversion: Conversion, code: &[u8], e: &[u8], out: &mut [u8]) -> Result<usize, Refusal>
    requires { (length e.now ≤ entry_most) × (entry_most ≤ length out.old) × ConversionWithin code.now conversion }
    ensures value { told result ≡ sized (limited entry_most (conversion_gives (conversion_of code.now conversion) e.now)) }
    ensures out_after { out.new
        ≡ written out.old (limited entry_most (conversion_gives (conversion_of code.now conversion) e.now)) }
{
    match conversion {
        Conversion::Plain(plain) => give_plain(plain, e, out),
        Conversion::Mask(mask) => masks::give(e, mask, out),
        Conversion::Date { digits, separator } => dates::printing::give(e, digits, separator, out),
        Conversion::Patterns { start, .. } => patterns::give(code, start, e, out),
    }
}

// "1 + the bytes it takes + the bytes it puts", and of P "1 + T x (element length + 1) + bytes put": what stands between, for so many bytes taken.
#[tactic(auto, unfolding(codes::specs::Counting::kind_of, paper::specs::Steps::charged))]
pub fn charged(conversion: Conversion, taken: u64) -> u64
    requires { (taken ≤ entry_most) × (tests_of (kind_of conversion) ≤ code_most) }
    ensures value { result ≡ charged (kind_of conversion) 0 taken }
    ensures upper_bound { result ≤ charged_most }
{
    match conversion {
        Conversion::Plain(_) | Conversion::Mask(_) | Conversion::Date { .. } => taken,
        Conversion::Patterns { tests, .. } => tests * (taken + 1),
    }
}
