// What the crates above share on lent bytes: whether and how many bytes pass a test, scans for the first one; fill, clear and copy.
// A scan that may be long goes by blocks, which is compiled to SIMD, and one that is short byte by byte.
// A scan is stated by a test of the bytes; a writer by one list, `over`: the buffer with some bytes laid over it, every other as it was.
// What fills is the slice's own method, so that its proof by `over` stands once and not at each call.
// Only crates of ours call these; each asks that the bytes it goes over lie within the buffer.
#![tactic(auto)]

ghost use Rattle.std.specs.Prelude.{◌≡◌, ◌+◌, ◌≤◌, ℕ, Bool, length, take, drop, replicate, count_by};
ghost use Rattle.paper.specs.Bytes.{any, within};
ghost use Rattle.paper.specs.Sizes.{is_mark};
ghost use Rattle.lent.specs.Over.{over};
ghost use Rattle.lent.specs.Scan.{upto, first_place};

use paper::Mark;

// As many bytes as are tested in one go where a scan may be long.
pub const BLOCK: usize = 16;

// Whether a byte is there that passes the test. No early exit and a flag as wide as a byte, so that it is compiled to SIMD:
// with a bool and `|=` in its place, finding in a record of 32,000 bytes took 9 times as long when measured.
pub fn some<F: Fn(u8) -> bool>(text: &[u8], test: F) -> bool
    requires { F.IsAlwaysCallable test }
    ensures { (p : ℕ → Bool) → ((b : ℕ) (r : Bool) → F.post test b r → r ≡ p b) → result ≡ any p text.now }
{
    let mut found = 0u8;
    for &b in text {
        if test(b) {
            found = 1;
        }
    }
    found != 0
}

// How many bytes pass the test. A loop: `filter` with `count` took about twice as long when measured.
pub fn count<F: Fn(u8) -> bool>(text: &[u8], test: F) -> u64
    requires { F.IsAlwaysCallable test }
    ensures { (p : ℕ → Bool) → ((b : ℕ) (r : Bool) → F.post test b r → r ≡ p b) → result ≡ count_by p text.now }
{
    let mut n = 0;
    for &b in text {
        if test(b) {
            n += 1;
        }
    }
    n
}

// Whether a byte within low .. high is there.
pub fn some_within(text: &[u8], low: u8, high: u8) -> bool
    ensures { result ≡ any (within low high) text.now }
{
    some(text, |b| (low <= b) & (b <= high))
}

// Whether a mark is there, "a byte 251 to 255".
pub fn marked(text: &[u8]) -> bool
    ensures { result ≡ any is_mark text.now }
{
    some_within(text, Mark::BUFFER.byte, Mark::SEGMENT.byte)
}

// The first place from `from` up to `to` with a byte within low .. high, or `to`: byte by byte.
pub fn first_within(text: &[u8], from: usize, to: usize, low: u8, high: u8) -> usize
    requires { (from ≤ to) × (to ≤ length text.now) }
    ensures { result ≡ first_place low high text.now from to }
{
    let passed = text[from..to]
        .iter()
        .position(|&b| (low <= b) & (b <= high))
        .unwrap_or(to - from);
    from + passed
}

// The first place from `from` on with this byte, or the text's end.
pub fn place_of(text: &[u8], from: usize, b: u8) -> usize
    requires { from ≤ length text.now }
    ensures in_bounds { (from ≤ result) × (result ≤ length text.now) }
    ensures value { result ≡ from + length (upto b b (drop from text.now)) }
{
    first_within(text, from, text.len(), b, b)
}

// Past the blocks that hold no such byte. A counted place: of `position` over `chunks_exact`, as fast, the library has no lemma.
fn pass_blocks(text: &[u8], from: usize, to: usize, low: u8, high: u8) -> usize
    requires { (from ≤ to) × (to ≤ length text.now) }
    ensures upper_bound { result ≤ to }
    ensures to_value { first_place low high text.now from to ≡ first_place low high text.now result to }
{
    let mut at = from;
    for block in text[from..to].chunks_exact(BLOCK) {
        if some_within(block, low, high) {
            return at;
        }
        at += BLOCK;
    }
    at
}

// The same place: by blocks, and the last bytes one by one.
pub fn far_within(text: &[u8], from: usize, to: usize, low: u8, high: u8) -> usize
    requires { (from ≤ to) × (to ≤ length text.now) }
    ensures { result ≡ first_place low high text.now from to }
{
    let at = pass_blocks(text, from, to, low, high);
    first_within(text, at, to, low, high)
}

// At most a block behind `from`.
fn near(from: usize, to: usize) -> usize
    requires { from ≤ to }
    ensures { (from ≤ result) × (result ≤ to) }
{
    from + BLOCK.min(to - from)
}

// The same place, where it is most often near: the first bytes are tested one by one, and blocks only behind them.
pub fn next_within(text: &[u8], from: usize, to: usize, low: u8, high: u8) -> usize
    requires { (from ≤ to) × (to ≤ length text.now) }
    ensures { result ≡ first_place low high text.now from to }
{
    if from == to {
        return to;
    }
    let b = text[from];
    if (low <= b) & (b <= high) {
        return from;
    }
    let end = near(from, to);
    let at = first_within(text, from, end, low, high);
    if at < end {
        return at;
    }
    far_within(text, end, to, low, high)
}

// The first n bytes, or all where there are fewer.
pub fn front(text: &[u8], n: usize) -> &[u8]
    ensures { result.now ≡ take n text.now }
{
    &text[..n.min(text.len())]
}

// `count` bytes b from place `at` on.
pub fn fill(buf: &mut [u8], at: usize, count: usize, b: u8)
    requires { at + count ≤ length buf.old }
    ensures { buf.new ≡ over buf.old at (replicate count b) }
{
    buf[at..at + count].fill(b);
}

// Zeros throughout: what a lent buffer holds after a refusal.
pub fn clear(buf: &mut [u8])
    ensures { buf.new ≡ replicate (length buf.old) 0 }
{
    buf.fill(0);
}

// All of src from place `at` on. Byte by byte, as the copies below: the slice's own method is a call of `memmove`, which the archive does not ask of its
// host, and where an element is empty or short the call costs more than the copy. An index is kept: of what is written through `iter_mut` a proof
// knows the length alone.
pub fn copy_in(src: &[u8], dst: &mut [u8], at: usize)
    requires { at + length src.now ≤ length dst.old }
    ensures { dst.new ≡ over dst.old at src.now }
{
    for (j, &b) in src.iter().enumerate() {
        dst[at + j] = b;
    }
}

// Front to back, so that no byte is written before it is read: for a place below.
fn copy_down(buf: &mut [u8], from: usize, to: usize, count: usize)
    requires { (from + count ≤ length buf.old) × (to ≤ from) }
    ensures { buf.new ≡ over buf.old to (take count (drop from buf.old)) }
{
    for j in 0..count {
        buf[to + j] = buf[from + j];
    }
}

// Back to front, so that no byte is written before it is read: for a place above.
fn copy_up(buf: &mut [u8], from: usize, to: usize, count: usize)
    requires { (to + count ≤ length buf.old) × (from ≤ to) }
    ensures { buf.new ≡ over buf.old to (take count (drop from buf.old)) }
{
    // a `while`: what is left to copy is the index itself
    let mut j = count;
    while 0 < j {
        j -= 1;
        buf[to + j] = buf[from + j];
    }
}

// `count` bytes from place `from` to place `to` of one buffer, also where the two overlap.
pub fn copy_within(buf: &mut [u8], from: usize, to: usize, count: usize)
    requires { (from + count ≤ length buf.old) × (to + count ≤ length buf.old) }
    ensures { buf.new ≡ over buf.old to (take count (drop from buf.old)) }
{
    if to <= from {
        copy_down(buf, from, to, count);
    } else {
        copy_up(buf, from, to, count);
    }
}
