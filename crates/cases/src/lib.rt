// What the program over tables of cases reads and draws by: the fields of a case and the bytes that they spell, and a text with its marks drawn.
// A table has a case to a line, its fields parted by a byte; long elements and marks may be spelled in braces, so that a table is plain text.
// Every contract is an equality with a definition of specs/Tables.antt.
#![tactic(auto)]

pub mod lines;

ghost use Rattle.std.specs.Prelude.{◌≡◌, ◌++◌, map, true, ◌+◌, ◌≤◌, ◌<◌, min, length, drop, get_or, replicate, ltb, if◌then◌else◌};
ghost use Rattle.std.proofs.Math.Option.{none};
ghost use Rattle.std.specs.Counts.{IsPrefixLen};
ghost use Rattle.lent.specs.Scan.{piece};
ghost use Rattle.cases.specs.Tables.{shown, shown_byte, meant, laid, behind, digit, number, braced, unbraced, spelled};

use paper::Mark;

// A text of at most so many bytes is shown: what a case turns on is shorter.
pub const SHOWN: usize = 64;

// A byte so many times, and where the text goes on behind it. Not a `Read` of a pair, which would leave byte and count unnamed.
#[derive(Clone, Copy)]
struct Piece {
    byte: u8,
    count: usize,
    next: usize,
}

// A mark as the paper draws it, and a zero byte as `.`: a stored text has neither.
fn drawn(b: u8) -> u8
    ensures { result ≡ shown_byte b }
{
    if b == 0 { b'.' } else { Mark::drawn(b) }
}

// A text with its marks and zeros drawn, as much as there is room for; how many bytes.
pub fn draw(text: &[u8], line: &mut [u8]) -> usize
    ensures prefix_len { IsPrefixLen result line.new }
    ensures value { result ≡ behind line.old 0 (map shown_byte text.now) }
    ensures line_after { line.new ≡ laid line.old 0 (map shown_byte text.now) }
{
    let n = text.len().min(line.len());
    // An index is kept here: of what is written through a `zip` of `iter_mut` a proof knows the length alone.
    for (j, &b) in text[..n].iter().enumerate() {
        line[j] = drawn(b);
    }
    n
}

// Whether a text is too long to be shown: its length is written then.
pub fn long(text: &[u8]) -> bool
    ensures { result ≡ ltb shown (length text.now) }
{
    SHOWN < text.len()
}

// By which a case's kind is told; 0 of an empty text. Not an `Option`: no caller names 0, so that its last arm takes both.
pub fn first_byte(text: &[u8]) -> u8
    ensures { result ≡ get_or text.now 0 0 }
{
    text.first().copied().unwrap_or(0)
}

// A field, counted from 0, of a text whose fields are parted by a byte; empty where there is none.
pub fn field(text: &[u8], number: u64, parted: u8) -> &[u8]
    ensures { result.now ≡ piece parted number text.now }
{
    let mut at = 0;
    for _ in 0..number {
        let end = lent::place_of(text, at, parted);
        if end == text.len() {
            return &[];
        }
        at = end + 1;
    }
    let end = lent::place_of(text, at, parted);
    &text[at..end]
}

fn digit(b: u8) -> u64
    ensures { (result ≤ 9) × (result ≡ digit b) }
{
    match b {
        b'0'..=b'9' => u64::from(b - b'0'),
        _ => 0,
    }
}

// The number that a text's digits make, or the largest there is.
pub(crate) fn number(text: &[u8]) -> u64
    ensures { result ≡ number text.now }
{
    text.iter().fold(0u64, |n, &b| n.saturating_mul(10).saturating_add(digit(b)))
}

fn byte_of(n: u64) -> u8
    ensures { result ≡ if ltb n 256 then n else 63 }
{
    u8::try_from(n).unwrap_or(b'?')
}

// What stands in braces: `n*x` is n bytes x, and `n` is the byte n.
fn in_braces(text: &[u8], next: usize) -> Piece
    ensures { (result.next ≡ next) × (replicate result.count result.byte ≡ braced text.now) }
{
    let n = number(field(text, 0, b'*'));
    match field(text, 1, b'*').first() {
        None => Piece {
            byte: byte_of(n),
            count: 1,
            next,
        },
        Some(&byte) => Piece {
            byte,
            count: n as usize,
            next,
        },
    }
}

// What is in braces, or a byte as it stands: a brace that nothing closes is such a byte.
fn next_piece(text: &[u8], at: usize) -> Piece
    requires { at < length text.now }
    ensures at_lt_next { (at < result.next) × (result.next ≤ length text.now) }
    ensures text_value { unbraced none (drop at text.now) ≡ replicate result.count result.byte ++ unbraced none (drop result.next text.now) }
{
    let byte = text[at];
    let next = at + 1;
    if byte == b'{' {
        let end = lent::place_of(text, next, b'}');
        if end < text.len() {
            return in_braces(&text[next..end], end + 1);
        }
    }
    Piece {
        byte,
        count: 1,
        next,
    }
}

// So many bytes from `from` on, or as many as there is room for; the place behind them.
fn lay(out: &mut [u8], from: usize, count: usize, b: u8) -> usize
    requires { from ≤ length out.old }
    ensures value { result ≡ behind out.old from (replicate count b) }
    ensures out_after { out.new ≡ laid out.old from (replicate count b) }
{
    let n = count.min(out.len() - from);
    lent::fill(out, from, n, b);
    from + n
}

// The byte that a drawn mark stands for.
fn raw(b: u8) -> u8
    ensures { result ≡ meant true b }
{
    match b {
        b'^' => Mark::ATTRIBUTE.byte,
        b']' => Mark::VALUE.byte,
        b'\\' => Mark::SUBVALUE.byte,
        _ => b,
    }
}

// A flag and no closure: `spelled` is stated by this one definition, of a record's text and of a code string alike.
fn meant(b: u8, marks: bool) -> u8
    ensures { result ≡ meant marks b }
{
    if marks { raw(b) } else { b }
}

// The bytes that a field stands for, as many as there is room for; in a record the drawn marks are put in, in a code string `]` is an elm.
pub(crate) fn spelled(text: &[u8], marks: bool, out: &mut [u8]) -> usize
    ensures prefix_len { IsPrefixLen result out.new }
    ensures value { result ≡ behind out.old 0 (spelled marks text.now) }
    ensures out_after { out.new ≡ laid out.old 0 (spelled marks text.now) }
{
    let mut n = 0;
    // An index is kept here: each piece says where the next one begins.
    let mut at = 0;
    while at < text.len() {
        let piece = next_piece(text, at);
        n = lay(out, n, piece.count, meant(piece.byte, marks));
        at = piece.next;
    }
    n
}
