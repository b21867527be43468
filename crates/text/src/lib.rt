// Text into a lent buffer, which is never overrun (RULES 8.7): what fits is written, and the place counts on, so that the last place
// tells how much room was needed. Each function takes the place to write at and gives the place after. No public one asks anything of its caller.
#![tactic(auto)]

ghost use Rattle.std.specs.Prelude.{[], ◌∷◌, ◌++◌, ◌≡◌, ◌+◌, ◌%◌, ◌<◌, ◌≤◌, length};
ghost use Rattle.text.specs.Text.{digit as digit_of, digits, decimal_length as spec_decimal_length, decimal, hex8, hex16, addresses};
ghost use Rattle.text.specs.Overlay.{overlay, Laid};

// One byte.
pub fn put_byte(out: &mut [u8], at: usize, b: u8) -> usize
    ensures { Laid out.old at (b ∷ []) result out.new }
{
    if at < out.len() {
        out[at] = b;
    }
    if at < usize::MAX { at + 1 } else { at }
}

// The bytes of a slice that has room, as its caller has tested: no byte is tested by itself.
fn lay_text(out: &mut [u8], at: usize, s: &[u8])
    requires { at + length s.now ≤ length out.old }
    ensures { out.new ≡ overlay out.old at s.now }
{
    out[at..at + s.len()].copy_from_slice(s);
}

// The bytes of a slice, each tested: the text may pass the buffer's end.
fn put_bytes(out: &mut [u8], at: usize, s: &[u8]) -> usize
    ensures { Laid out.old at s.now result out.new }
{
    let mut next = at;
    for b in s {
        next = put_byte(out, next, *b);
    }
    next
}

// The bytes of a slice.
pub fn put_text(out: &mut [u8], at: usize, s: &[u8]) -> usize
    ensures { Laid out.old at s.now result out.new }
{
    if at < out.len() && s.len() <= out.len() - at {
        lay_text(out, at, s);
        return at + s.len();
    }
    put_bytes(out, at, s)
}

// A text and a byte after it: where they have room, it is tested once for both.
pub fn put_word(out: &mut [u8], at: usize, s: &[u8], after: u8) -> usize
    ensures { Laid out.old at (s.now ++ (after ∷ [])) result out.new }
{
    if at < out.len() && s.len() < out.len() - at {
        lay_text(out, at, s);
        out[at + s.len()] = after;
        return at + s.len() + 1;
    }
    let next = put_bytes(out, at, s);
    put_byte(out, next, after)
}

// '0'-'9', 'a'-'f'.
fn digit(d: u64) -> u8
    requires { d < 16 }
    ensures { result ≡ digit_of d }
{
    if d < 10 { 48 + d as u8 } else { 87 + d as u8 }
}

// The last decimal digit of a value.
fn put_last(out: &mut [u8], at: usize, value: u64) -> usize
    ensures { Laid out.old at (digit_of (value % 10) ∷ []) result out.new }
{
    put_byte(out, at, digit(value % 10))
}

// The last n decimal digits of a value.
fn put_digits(out: &mut [u8], at: usize, n: usize, value: u64) -> usize
    ensures { Laid out.old at (digits 10 n value []) result out.new }
{
    if n == 0 {
        return at;
    }
    let next = put_digits(out, at, n - 1, value / 10);
    put_last(out, next, value)
}

// The last n hex digits of a value, the highest first.
fn put_hex(out: &mut [u8], at: usize, n: usize, value: u64) -> usize
    requires { n ≤ 16 }
    ensures { Laid out.old at (digits 16 n value []) result out.new }
{
    let mut next = at;
    for i in (0..n).rev() {
        let high = value >> (4 * i);
        next = put_byte(out, next, digit(high % 16));
    }
    next
}

// The last four hex digits of a value, which have room, as the caller has tested. Divided so, in 32 bits, they are
// made all at once by the compiler.
fn lay_hex4(out: &mut [u8], at: usize, value: u32)
    requires { at + 4 ≤ length out.old }
    ensures { out.new ≡ overlay out.old at (digits 16 4 value []) }
{
    out[at] = digit((value / 16 / 16 / 16 % 16) as u64);
    out[at + 1] = digit((value / 16 / 16 % 16) as u64);
    out[at + 2] = digit((value / 16 % 16) as u64);
    out[at + 3] = digit((value % 16) as u64);
}

// Eight hex digits, which have room, as the caller has tested.
fn lay_hex8(out: &mut [u8], at: usize, value: u32) -> usize
    requires { at + 8 ≤ length out.old }
    ensures { Laid out.old at (hex8 value) result out.new }
{
    lay_hex4(out, at, value / 16 / 16 / 16 / 16);
    lay_hex4(out, at + 4, value);
    at + 8
}

// Eight and sixteen hex digits. Addresses are most of a walk's text: eight digits that have room are laid with no
// test of each.
pub fn put_hex8(out: &mut [u8], at: usize, value: u32) -> usize
    ensures { Laid out.old at (hex8 value) result out.new }
{
    if at < out.len() && 8 <= out.len() - at {
        return lay_hex8(out, at, value);
    }
    put_hex(out, at, 8, value as u64)
}

pub fn put_hex16(out: &mut [u8], at: usize, value: u64) -> usize
    ensures { Laid out.old at (hex16 value) result out.new }
{
    put_hex(out, at, 16, value)
}

// Two addresses between spaces, which have room, as the caller has tested.
fn lay_addresses(out: &mut [u8], at: usize, pc: u32, sp: u32) -> usize
    requires { at + 19 ≤ length out.old }
    ensures { Laid out.old at (addresses pc sp) result out.new }
{
    out[at] = b' ';
    let next = lay_hex8(out, at + 1, pc);
    out[next] = b' ';
    let next = lay_hex8(out, next + 1, sp);
    out[next] = b' ';
    next + 1
}

// Two addresses between spaces, as in a frame's line (RULES 8.3): where they have room, one test serves them all.
pub fn put_addresses(out: &mut [u8], at: usize, pc: u32, sp: u32) -> usize
    ensures { Laid out.old at (addresses pc sp) result out.new }
{
    if at < out.len() && 19 <= out.len() - at {
        return lay_addresses(out, at, pc, sp);
    }
    let next = put_byte(out, at, b' ');
    let next = put_hex8(out, next, pc);
    let next = put_byte(out, next, b' ');
    let next = put_hex8(out, next, sp);
    put_byte(out, next, b' ')
}

// How many decimal digits a number below 10 ^ limit has.
fn decimal_length(limit: usize, value: u64) -> usize
    requires { limit < 64 }
    ensures { (result ≡ spec_decimal_length limit value) × (result ≤ limit + 1) }
{
    if limit == 0 {
        return 1;
    }
    if value < 10 {
        return 1;
    }
    1 + decimal_length(limit - 1, value / 10)
}

// A number in decimal. Of a number below 1000, as a frame's is, the digits are not counted first.
pub fn put_decimal(out: &mut [u8], at: usize, value: u64) -> usize
    ensures { Laid out.old at (decimal value) result out.new }
{
    if value < 10 {
        return put_last(out, at, value);
    }
    if value < 100 {
        let next = put_last(out, at, value / 10);
        return put_last(out, next, value);
    }
    if value < 1000 {
        let next = put_last(out, at, value / 10 / 10);
        let next = put_last(out, next, value / 10);
        return put_last(out, next, value);
    }
    let n = decimal_length(20, value);
    put_digits(out, at, n, value)
}

// A text and a number in decimal.
pub fn put_count(out: &mut [u8], at: usize, name: &[u8], value: u64) -> usize
    ensures { Laid out.old at (name.now ++ decimal value) result out.new }
{
    let next = put_text(out, at, name);
    put_decimal(out, next, value)
}
