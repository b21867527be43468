// Little-endian words of lent bytes (RULES 1.3, 1.7): a part of the .pdata, of the .xdata, of the stack, of a file. Two functions alone ask
// of their caller that the bytes are there, `word32_in` and `word64_in`, for a caller that has tested them once for many words.
#![tactic(auto)]

ghost use Rattle.std.specs.Prelude.{◌≡◌, ◌+◌, ◌<◌, ◌≤◌, length, get_or};
ghost use Rattle.lent.specs.Little.{word32 as word32_of, word64 as word64_of};
ghost use Rattle.lent.specs.Lent.{Lent, lent, holds as holds_of, word_at as spec_word_at};

// A byte as a word, with its range.
fn wide(b: u8) -> u32
    ensures { (result ≡ b) × (result < 256) }
{
    b as u32
}

// A byte of the slice, as a word.
fn byte_in(s: &[u8], i: usize) -> u32
    requires { i < length s.now }
    ensures { (result ≡ get_or s.now i 0) × (result < 256) }
{
    wide(s[i])
}

// The byte k places after a place of the slice; 0 where there is none.
fn byte_after(s: &[u8], at: usize, k: usize) -> u32
    ensures { (result ≡ get_or s.now (at + k) 0) × (result < 256) }
{
    if s.len() <= at {
        return 0;
    }
    if s.len() - at <= k {
        return 0;
    }
    byte_in(s, at + k)
}

// The words at a place whose bytes are in the slice: the caller has tested that, once for many words.
pub fn word32_in(s: &[u8], i: usize) -> u32
    requires { i + 4 ≤ length s.now }
    ensures { result ≡ word32_of s.now i }
{
    byte_in(s, i)
        + 256 * byte_in(s, i + 1)
        + 65536 * byte_in(s, i + 2)
        + 16777216 * byte_in(s, i + 3)
}

pub fn word64_in(s: &[u8], i: usize) -> u64
    requires { i + 8 ≤ length s.now }
    ensures { result ≡ word64_of s.now i }
{
    (word32_in(s, i) as u64) + 4294967296 * (word32_in(s, i + 4) as u64)
}

// The word at a place of the slice, its bytes one by one: those past the end are 0.
fn word32_bytewise(s: &[u8], at: usize) -> u32
    ensures { result ≡ word32_of s.now at }
{
    byte_after(s, at, 0)
        + 256 * byte_after(s, at, 1)
        + 65536 * byte_after(s, at, 2)
        + 16777216 * byte_after(s, at, 3)
}

// The same, by one test where the four bytes are there. Whoever takes it for a word of the input has tested that they are.
pub fn word32(s: &[u8], at: usize) -> u32
    ensures { result ≡ word32_of s.now at }
{
    if at < s.len() {
        if 4 <= s.len() - at {
            return word32_in(s, at);
        }
    }
    word32_bytewise(s, at)
}

// Whether n bytes from an address are lent, of `len` bytes from `base` up.
pub fn holds(base: u32, s: &[u8], at: u64, n: u64) -> bool
    ensures { result ≡ holds_of (lent base s.now) at n }
{
    let low = base as u64;
    let len = s.len() as u64;
    if at < low {
        return false;
    }
    if len < at - low {
        return false;
    }
    n <= len - (at - low)
}

// The word at an address of lent bytes.
pub fn word_at(base: u32, s: &[u8], at: u64) -> u32
    ensures { result ≡ spec_word_at (lent base s.now) at }
{
    let low = base as u64;
    if at < low {
        return word32(s, 0);
    }
    word32(s, (at - low) as usize)
}
