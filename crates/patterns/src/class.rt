// The classes of a test: "`nN`, `nA`, `nX`" (SMA:101, 2.12: numeric, alpha, any character).
ghost use Rattle.std.specs.Prelude.{◌≡◌, ◌+◌, ◌<◌, ◌^◌, if◌then◌else◌};
ghost use Rattle.paper.specs.Patterns.{of_class};
ghost use Rattle.codes.specs.Meaning.{class_of};
ghost use Rattle.patterns.specs.Reach.{flag};

use codes::Class;
use texts::letter;

// A match: the enum is the paper's, in crates/codes, and the bytes' tests are those of crates/texts.
#[tactic(auto, unfolding(paper::specs::Patterns::of_class, codes::specs::Meaning::class_of))]
fn of_class(class: Class, b: u8) -> bool
    ensures { result ≡ of_class (class_of class) b }
{
    match class {
        Class::Numeric => letter::is_digit(b),
        Class::Alpha => letter::is_letter(b),
        Class::Character => true,
    }
}

// 1 or 0, so that a flag is kept by `&` and no choice stands in a loop's way.
pub(crate) fn mark(class: Class, b: u8) -> u8
    ensures { result ≡ flag (of_class (class_of class) b) }
{
    u8::from(of_class(class, b))
}

// A run of bytes of the class, with one byte more in front.
pub(crate) fn longer(class: Class, b: u8, run: usize) -> usize
    requires { run + 1 < 2 ^ 64 }
    ensures { result ≡ (if of_class (class_of class) b then run + 1 else 0) }
{
    if of_class(class, b) { run + 1 } else { 0 }
}
