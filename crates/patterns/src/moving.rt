// One test for all cuts at once: the flags of the places that the tests so far can end at are moved on in place, in one pass over the element.
// "if it can be cut into consecutive parts that meet the tests in turn": no place is given up for another, and none is tried twice.
// An element and its flags are two slices: a struct of both, lent to be written, would have each contract say that the element stays.
ghost use Rattle.std.specs.Prelude.{◌≡◌, Bool, ◌+◌, ◌≤◌, ◌<◌, length, drop, leb, if◌then◌else◌};
ghost use Rattle.paper.specs.Bytes.{Bytes};
ghost use Rattle.paper.specs.Codes as paper;
ghost use Rattle.paper.proofs.Patterns.{cut_by};
ghost use Rattle.codes.specs.Meaning.{class_of, test_of};
ghost use Rattle.patterns.specs.Reach.{Marks, Moved, Carried, goes_on, starts, TestWithin};

use crate::class;
use codes::{Class, Test};

// "0 meaning any number and none": a place stays, and a byte of the class leads from it to the next.
fn extend(class: Class, e: &[u8], reach: &mut [u8])
    requires { length e.now < length reach.old }
    ensures { Moved (paper.so_many 0 (class_of class)) e.now reach.old reach.new }
{
    let mut carried = 0u8;
    // by index: through a `zip` of `iter_mut` a proof knows the length alone
    for (j, &b) in e.iter().enumerate() {
        let here = reach[j] | carried;
        let passed = here & class::mark(class, b);
        reach[j] = here;
        carried = passed;
    }
    reach[e.len()] |= carried;
}

fn if_long(run: usize, count: usize, flag: u8) -> u8
    ensures { result ≡ (if leb count run then flag else 0) }
{
    if count <= run { flag } else { 0 }
}

// Right to left, so that a place is read before it is written and the run that goes on from it is known: any count costs one pass.
fn carry_run(class: Class, count: usize, e: &[u8], reach: &mut [u8])
    requires { (0 < count) × (count ≤ length e.now) × (length e.now + length e.now < length reach.old) }
    ensures { Carried (goes_on (class_of class) count) count e.now 0 reach.old reach.new }
{
    let mut run = 0;
    for i in (0..e.len()).rev() {
        run = class::longer(class, e[i], run);
        reach[i + count] = if_long(run, count, reach[i]);
    }
}

// So many bytes of a class exactly: no place nearer than that is left.
fn run_on(class: Class, count: usize, e: &[u8], reach: &mut [u8])
    requires { (0 < count) × (length e.now + length e.now < length reach.old) }
    ensures { Moved (paper.so_many count (class_of class)) e.now reach.old reach.new }
{
    let n = e.len();
    if n < count {
        reach[..=n].fill(0);
        return;
    }
    carry_run(class, count, e, reach);
    reach[..count].fill(0);
}

// A flag behind a literal. Most places fail by their flag or by the first byte, which is tried by itself: `starts_with` was slower (measured).
fn behind(text: &[u8], e: &[u8], i: usize, flag: u8) -> u8
    requires { (0 < length text.now) × (i + length text.now ≤ length e.now) }
    ensures { result ≡ (if starts text.now (drop i e.now) then flag else 0) }
{
    if flag != 0 && e[i] == text[0] && &e[i + 1..i + text.len()] == &text[1..] {
        flag
    } else {
        0
    }
}

// Right to left as well, from the last place that the literal can stand at.
fn carry_text(text: &[u8], e: &[u8], reach: &mut [u8])
    requires { (0 < length text.now) × (length text.now ≤ length e.now) × (length e.now < length reach.old) }
    ensures { Carried (starts text.now) (length text.now) e.now 0 reach.old reach.new }
{
    let count = text.len();
    for i in (0..e.len() - count + 1).rev() {
        reach[i + count] = behind(text, e, i, reach[i]);
    }
}

// "a quoted literal": exactly its bytes. An empty one leaves every place as it is.
fn literal(text: &[u8], e: &[u8], reach: &mut [u8])
    requires { length e.now < length reach.old }
    ensures { Moved (paper.literal text.now) e.now reach.old reach.new }
{
    let count = text.len();
    let n = e.len();
    if count == 0 {
        return;
    }
    if n < count {
        reach[..=n].fill(0);
        return;
    }
    carry_text(text, e, reach);
    reach[..count].fill(0);
}

pub(crate) fn advance(test: Test, code: &[u8], e: &[u8], reach: &mut [u8])
    requires { TestWithin code.now test × (length e.now + length e.now < length reach.old) }
    ensures { Moved (test_of code.now test) e.now reach.old reach.new }
{
    match test {
        Test::SoMany { count, class } => {
            if count == 0 {
                extend(class, e, reach);
            } else {
                run_on(class, count as usize, e, reach);
            }
        }
        Test::Literal { start, len } => literal(&code[start..start + len], e, reach),
    }
}

// The last test of a pattern need only end at the element's end: a literal stands there or not.
fn ends_with(text: &[u8], e: &[u8], reach: &[u8]) -> bool
    requires { length e.now < length reach.now }
    ensures { (before : Bytes → Bool) → Marks before e.now reach.now
        → result ≡ cut_by before (paper.literal text.now) e.now }
{
    let count = text.len();
    if e.len() < count {
        return false;
    }
    reach[e.len() - count] == 1 && e.ends_with(text)
}

// Whether the element's end is reached behind this test.
pub(crate) fn ends(test: Test, code: &[u8], e: &[u8], reach: &mut [u8]) -> bool
    requires { TestWithin code.now test × (length e.now + length e.now < length reach.old) }
    ensures { (before : Bytes → Bool) → Marks before e.now reach.old
        → result ≡ cut_by before (test_of code.now test) e.now }
{
    match test {
        Test::Literal { start, len } => ends_with(&code[start..start + len], e, reach),
        _ => {
            advance(test, code, e, reach);
            reach[e.len()] == 1
        }
    }
}
