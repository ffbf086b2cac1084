// Document 02, L4: "An expression holds operands, and an operand in parentheses holds an expression again."
// Its loops are written out: only the reader of an operand says where the next byte to look at stands.
ghost use Rattle.std.specs.Prelude.{◌≡◌, ◌∷◌, [], ℕ, suc, ◌+◌, ◌≤◌, ◌<◌, length, drop};
ghost use Rattle.paper.specs.Bytes.{ch};
ghost use Rattle.paper.specs.Sizes.{segment_mark};
ghost use Rattle.algebra.specs.Expressions.{Operator, elms_in, operand_elms};
ghost use Rattle.algebra.specs.Grammar.{fetch, up_to, pair, remainder_of, base, operand, expression};
ghost use Rattle.algebra.specs.Laying.{Room, Lays, pair_elms, bracket_elms, operation_elms, fetches};

use crate::operators::operator;
use crate::texts::Text;
use codes::{Elm, Operand};
use grammar::elms::elm;
use readers::places::peek;

// Whether an elm of F is an operand of A: an attribute or a literal; `LPV` is none.
#[tactic(auto, unfolding(crate::specs::Laying::fetches))]
fn fetches(elm: Elm) -> bool
    ensures { result ≡ fetches elm }
{
    matches!(
        elm,
        Elm::Push(Operand::Attribute { .. } | Operand::Literal { .. })
    )
}

// "Operands are F's attributes and literals", in their own spelling.
fn fetch(code: &[u8], at: usize, text: &mut Text) -> Option<usize>
    requires { Room code.now at text.old.bytes text.old.len }
    ensures { Lays operand_elms code.now at text.old.bytes text.old.len (fetch (drop at code.now)) result text.new.bytes text.new.len }
{
    let read = elm(code, at).ok()?;
    if !fetches(read.value) {
        return None;
    }
    text.spell(&code[at..read.next]);
    Some(read.next)
}

// An expression and the byte behind it.
#[cycle(expression_cycle)]
fn up_to(code: &[u8], at: usize, text: &mut Text, close: u8) -> Option<usize>
    requires { Room code.now at text.old.bytes text.old.len × (close < segment_mark) }
    ensures { (depth : ℕ) → length code.now ≤ at + depth
        → Lays elms_in code.now at text.old.bytes text.old.len (up_to (expression depth) close (drop at code.now)) result text.new.bytes text.new.len }
{
    let next = expression(code, at, text)?;
    let last = peek(code, next);
    if last.value != close {
        return None;
    }
    Some(last.next)
}

// `x,y` and the byte that closes them.
#[cycle(expression_cycle)]
fn pair(code: &[u8], at: usize, text: &mut Text, close: u8) -> Option<usize>
    requires { Room code.now at text.old.bytes text.old.len × (close < segment_mark) }
    ensures { (depth : ℕ) → length code.now ≤ at + depth
        → Lays pair_elms code.now at text.old.bytes text.old.len (pair (expression depth) close (drop at code.now)) result text.new.bytes text.new.len }
{
    let next = up_to(code, at, text, b',')?;
    up_to(code, next, text, close)
}

// The rest of `R(x,y)`.
#[cycle(expression_cycle)]
fn remainder(code: &[u8], at: usize, text: &mut Text) -> Option<usize>
    requires { Room code.now at text.old.bytes text.old.len }
    ensures { (depth : ℕ) → length code.now ≤ at + depth
        → Lays operand_elms code.now at text.old.bytes text.old.len
        (remainder_of (expression depth) (drop at code.now)) result text.new.bytes text.new.len }
{
    let ahead = peek(code, at);
    if ahead.value != b'(' {
        return None;
    }
    let next = pair(code, ahead.next, text, b')')?;
    text.sign(b'R');
    Some(next)
}

// The rest of `[y,z]`, and its elm.
#[cycle(expression_cycle)]
fn bracket(code: &[u8], at: usize, text: &mut Text) -> Option<usize>
    requires { Room code.now at text.old.bytes (text.old.len + 3) }
    ensures { (from depth : ℕ) → from < at → length code.now ≤ at + depth
        → Lays bracket_elms code.now from text.old.bytes text.old.len
        (pair (expression depth) (ch "]") (drop at code.now)) result text.new.bytes text.new.len }
{
    let next = pair(code, at, text, b']')?;
    text.sign(b'[');
    text.push(b']');
    Some(next)
}

// An operand without its brackets, by the byte ahead.
#[cycle(expression_cycle)]
fn base(code: &[u8], at: usize, text: &mut Text) -> Option<usize>
    requires { Room code.now at text.old.bytes text.old.len }
    ensures { (depth : ℕ) → length code.now ≤ at + suc depth
        → Lays operand_elms code.now at text.old.bytes text.old.len (base (expression depth) (drop at code.now)) result text.new.bytes text.new.len }
{
    let ahead = peek(code, at);
    match ahead.value {
        b'(' => up_to(code, ahead.next, text, b')'),
        b'R' => remainder(code, ahead.next, text),
        _ => fetch(code, at, text),
    }
}

// An operand, and any number of `[y,z]` behind it. Compiled into its callers, so that a level of parentheses is one call.
#[inline(always)]
#[cycle(expression_cycle)]
fn operand(code: &[u8], at: usize, text: &mut Text) -> Option<usize>
    requires { Room code.now at text.old.bytes text.old.len }
    ensures { (depth : ℕ) → length code.now ≤ at + suc depth
        → Lays operand_elms code.now at text.old.bytes text.old.len (operand (expression depth) (drop at code.now)) result text.new.bytes text.new.len }
{
    let mut next = base(code, at, text)?;
    loop {
        let ahead = peek(code, next);
        if ahead.value != b'[' {
            return Some(next);
        }
        next = bracket(code, ahead.next, text)?;
    }
}

// The operand behind an operator, and the operator straight after it.
#[cycle(expression_cycle)]
fn operation(code: &[u8], at: usize, text: &mut Text, byte: u8) -> Option<usize>
    requires { Room code.now at text.old.bytes (text.old.len + 3) }
    ensures { (from depth : ℕ) (o : Operator) → from < at → o.in_F ≡ byte ∷ [] → length code.now ≤ at + suc depth
        → Lays (operation_elms o) code.now from text.old.bytes text.old.len
        (operand (expression depth) (drop at code.now)) result text.new.bytes text.new.len }
{
    let next = operand(code, at, text)?;
    text.sign(byte);
    Some(next)
}

// Operands with operators between, "strictly left to right".
#[cycle(expression_cycle)]
pub(crate) fn expression(code: &[u8], at: usize, text: &mut Text) -> Option<usize>
    requires { Room code.now at text.old.bytes text.old.len }
    ensures { (depth : ℕ) → length code.now ≤ at + depth
        → Lays elms_in code.now at text.old.bytes text.old.len (expression depth (drop at code.now)) result text.new.bytes text.new.len }
{
    let mut next = operand(code, at, text)?;
    loop {
        let Some(sign) = operator(code, next) else {
            return Some(next);
        };
        next = operation(code, sign.next, text, sign.value)?;
    }
}
