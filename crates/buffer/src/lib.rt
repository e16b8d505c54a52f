// Runs of stores into lent buffers: clear, fill, copy, a newline with its blanks, clear what is dirty. Each promise says the whole buffer afterwards.
// No run writes an element twice, and none but its own; only `copy_over` may write behind its run.

#![tactic(auto)]

pub mod lines;
pub mod parts;
pub mod utf8;

ghost use Rattle.std.specs.Prelude.{◌≡◌, ◌∷◌, ◌++◌, ◌+◌, ◌-◌, ◌≤◌, ◌<◌, length, take, drop, replicate};
ghost use Rattle.buffer.specs.Run.{put, all_zero};

// Bytes that are copied at a time, and words that are read at a time.
const BYTES: usize = 32;

const WORDS: usize = 128;

// n times v from `at` on.
pub fn fill<T: Copy>(dst: &mut [T], at: usize, n: usize, v: T)
    requires { at + n ≤ length dst.old }
    ensures { dst.new ≡ put dst.old at (replicate n v) }
{
    // kept: std's `fill` asks that a clone can't fail, and `Copy` alone doesn't say so
    for x in &mut dst[at..at + n] {
        *x = v;
    }
}

// Every element from `at` on is v; those before it stay. Past the end there is nothing to do. With v = 0 that is `zeroed`.
pub fn fill_from<T: Copy>(dst: &mut [T], at: usize, v: T)
    ensures { dst.new ≡ take at dst.old ++ replicate (length dst.old - at) v }
{
    let n = dst.len();
    if at < n {
        fill(dst, at, n - at, v);
    }
}

// The n elements of src from `from` on stand in dst from `at` on.
pub fn copy<T: Copy>(src: &[T], from: usize, n: usize, dst: &mut [T], at: usize)
    requires { (from + n ≤ length src.now) × (at + n ≤ length dst.old) }
    ensures { dst.new ≡ put dst.old at (take n (drop from src.now)) }
{
    // kept: `copy_from_slice` calls memmove, and C is promised that the archive needs memcpy and memset alone
    for i in 0..n {
        dst[at + i] = src[from + i];
    }
}

// A block of src from `from` on stands in dst from `at` on. It is read whole before it is written, so that it goes by few wide moves.
fn copy_block(src: &[u8], from: usize, dst: &mut [u8], at: usize)
    requires { (from + 32 ≤ length src.now) × (at + 32 ≤ length dst.old) }
    ensures { dst.new ≡ put dst.old at (take 32 (drop from src.now)) }
{
    // kept: by way of an array, four wide moves; straight to dst it is a call of memcpy ("short texts as one block", docs/PERFORMANCE.md)
    let mut block = [0u8; 32];
    copy(src, from, BYTES, &mut block, 0);
    copy(&block, 0, BYTES, dst, at);
}

// The n bytes of src from `from` on stand in dst from `at` on, with the bytes before them kept. What stands behind them is left open: few
// bytes go as a whole block, where both sides have one left.
pub fn copy_over(src: &[u8], from: usize, n: usize, dst: &mut [u8], at: usize)
    requires { (from + n ≤ length src.now) × (at + n ≤ length dst.old) }
    ensures { (take (at + n) dst.new ≡ take at dst.old ++ take n (drop from src.now))
        × (length dst.new ≡ length dst.old) }
{
    if n <= BYTES && BYTES <= src.len() - from && BYTES <= dst.len() - at {
        copy_block(src, from, dst, at);
        return;
    }
    copy(src, from, n, dst, at);
}

// A block of blanks.
const BLANKS: [u8; 32] = [32; 32];

// n blanks from `at` on: whole blocks, then the rest.
fn fill_blanks(dst: &mut [u8], at: usize, n: usize)
    requires { at + n ≤ length dst.old }
    ensures { dst.new ≡ put dst.old at (replicate n 32) }
{
    // kept: by blocks, as docs/requests/2026-03 asks; one fill takes the same time
    let blanks = BLANKS;
    let blocks = n / BYTES;
    for k in 0..blocks {
        copy(&blanks, 0, BYTES, dst, at + k * BYTES);
    }
    let done = blocks * BYTES;
    fill(dst, at + done, n - done, b' ');
}

// Byte 10, then n blanks, from `at` on.
pub fn newline(dst: &mut [u8], at: usize, n: usize)
    requires { at + n < length dst.old }
    ensures { dst.new ≡ put dst.old at (10 ∷ replicate n 32) }
{
    dst[at] = 10;
    fill_blanks(dst, at + 1, n);
}

// Whether a block of words from `at` on is all 0.
fn is_clean(words: &[u32], at: usize) -> bool
    requires { at + 128 ≤ length words.now }
    ensures { result ≡ all_zero (take 128 (drop at words.now)) }
{
    words[at..at + WORDS]
        .iter()
        .fold(true, |clean, w| clean & (*w == 0))
}

// Every word is 0. A block is written only where it is not 0 yet: of a large buffer that is mostly clean, reading is cheaper.
pub fn clear_dirty_words(words: &mut [u32])
    ensures { words.new ≡ replicate (length words.old) 0 }
{
    // kept: by number; of what `chunks_mut` lends, its clauses say the length alone afterwards
    let blocks = words.len() / WORDS;
    for k in 0..blocks {
        let at = k * WORDS;
        if !is_clean(words, at) {
            fill(words, at, WORDS, 0);
        }
    }
    fill_from(words, blocks * WORDS, 0);
}
