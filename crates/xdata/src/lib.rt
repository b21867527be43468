// .xdata records: the head, the size, the scope words, the handler. It knows neither registers nor the stack.
#![tactic(auto)]

ghost use Rattle.std.specs.Prelude.{◌≡◌, ◌+◌, ◌*◌, ◌<◌, ◌≤◌, length};
ghost use Rattle.lent.specs.Lent.{lent};
ghost use Rattle.xdata.specs.Xdata.{fit_xdata, handled as handled_of, X, E, F, scope_count as spec_scope_count, codes_offset as spec_codes_offset, handler_offset as spec_handler_offset, record_bytes as spec_record_bytes, short_head as spec_short_head, head_at as spec_head_at, xdata_size as spec_xdata_size, size_given as spec_size_given, span_of, handler_at};
ghost use Rattle.xdata.specs.AsCoded.Heads.{whole_record as spec_whole_record, long_record};
ghost use Rattle.xdata.specs.Scopes.{scope_of as spec_scope_of};
ghost use Rattle.xdata.specs.AsCoded.Scopes.{res_zero as spec_res_zero};

use unwinding::{Scope, Start};
use words::{CodeBytes, Halfwords, Refusal, bit, bits};

// The head of an .xdata record: its first word, its own bytes (4, or 8 with the extension word), and the count and the code words from
// the one or the other.
#[derive(Clone, Copy)]
pub struct Head {
    pub word: u32,
    pub bytes: u32,
    pub count: u32,
    pub codewords: u32,
}

// Whether the .xdata may be lent at this RVA: 1 else.
pub fn fit(rva: u32, xdata: &[u8]) -> bool
    ensures { result ≡ fit_xdata (lent rva xdata.now) }
{
    rva % 4 == 0 && (rva as u64) + (xdata.len() as u64) <= 4294967296
}

// X: a handler follows the codes of the record with this first word.
pub fn handled(word: u32) -> bool
    ensures { result ≡ handled_of word }
{
    bit(word, 20)
}

fn has_handler(h: Head) -> bool
    ensures { result ≡ X h }
{
    handled(h.word)
}

// E: there is one epilogue, which has the count for an index (RULES 2.10).
pub fn has_last(h: Head) -> bool
    ensures { result ≡ E h }
{
    bit(h.word, 21)
}

// F: there is no prologue.
pub fn is_fragment(h: Head) -> bool
    ensures { result ≡ F h }
{
    bit(h.word, 22)
}

// The number of scope words.
pub fn scope_count(h: Head) -> u32
    ensures { result ≡ spec_scope_count h }
{
    if has_last(h) {
        return 0;
    }
    h.count
}

// The offset in a record of its codes.
pub fn codes_offset(h: Head) -> u64
    ensures { (result ≡ spec_codes_offset h) × (result < 34359738368) }
{
    (h.bytes as u64) + 4 * (scope_count(h) as u64)
}

// The offset of what follows them.
fn handler_offset(h: Head) -> u64
    ensures { (result ≡ spec_handler_offset h) × (result < 68719476736) }
{
    let codes = words::code_word_bytes(h.codewords);
    codes_offset(h) + (codes.0 as u64)
}

// The record's size.
fn record_bytes(h: Head) -> u64
    ensures { result ≡ spec_record_bytes h }
{
    if has_handler(h) {
        return handler_offset(h) + 4;
    }
    handler_offset(h)
}

// The head, if its whole record is lent.
fn whole_record(rva: u32, xdata: &[u8], at: u32, h: Head) -> Result<Head, Refusal>
    ensures { result ≡ spec_whole_record (lent rva xdata.now) at h }
{
    if !lent::holds(rva, xdata, at as u64, record_bytes(h)) {
        return Err(Refusal::OutsideXdata);
    }
    Ok(h)
}

// The head of a record with the extension word.
fn long_head(rva: u32, xdata: &[u8], at: u32, word: u32) -> Result<Head, Refusal>
    ensures { result ≡ long_record (lent rva xdata.now) at word }
{
    if !lent::holds(rva, xdata, at as u64, 8) {
        return Err(Refusal::OutsideXdata);
    }
    let v = lent::word_at(rva, xdata, (at as u64) + 4);
    if bits(v, 24, 8) != 0 {
        return Err(Refusal::Reserved);
    }
    let h = Head {
        word: word,
        bytes: 8,
        count: bits(v, 0, 16),
        codewords: bits(v, 16, 8),
    };
    whole_record(rva, xdata, at, h)
}

// The head of a record without it.
fn short_head(rva: u32, xdata: &[u8], at: u32, word: u32) -> Result<Head, Refusal>
    ensures { result ≡ spec_whole_record (lent rva xdata.now) at (spec_short_head word) }
{
    let h = Head {
        word: word,
        bytes: 4,
        count: bits(word, 23, 5),
        codewords: bits(word, 28, 4),
    };
    whole_record(rva, xdata, at, h)
}

// The head of the record at an RVA: the tests of RULES 9.52 but for Res.
pub fn head_at(rva: u32, xdata: &[u8], at: u32) -> Result<Head, Refusal>
    ensures { result ≡ spec_head_at (lent rva xdata.now) at }
{
    if !lent::holds(rva, xdata, at as u64, 4) {
        return Err(Refusal::OutsideXdata);
    }
    let word = lent::word_at(rva, xdata, at as u64);
    if bits(word, 18, 2) != 0 {
        return Err(Refusal::Reserved);
    }
    if bits(word, 23, 9) == 0 {
        return long_head(rva, xdata, at, word);
    }
    short_head(rva, xdata, at, word)
}

// The size of the record at an RVA, of which bits 0-1 are cleared (RULES 2.13).
pub fn xdata_size(rva: u32, xdata: &[u8], at: u32) -> Result<u32, Refusal>
    ensures { result ≡ spec_xdata_size (lent rva xdata.now) at }
{
    if !fit(rva, xdata) {
        return Err(Refusal::UnfitInput);
    }
    let head = head_at(rva, xdata, at - at % 4)?;
    Ok(record_bytes(head) as u32)
}

// What a size counts as where a number is owed: 0 if it is refused (RULES 2.13).
pub fn size_given(size: Result<u32, Refusal>) -> u32
    ensures { result ≡ spec_size_given size }
{
    size.unwrap_or(0)
}

// The function's length in bytes.
pub fn span_of(word: u32) -> u32
    ensures { result ≡ span_of word }
{
    words::halfword_bytes(Halfwords(bits(word, 0, 18))) as u32
}

// A scope word; its start stands where a head's length does.
pub fn scope_of(word: u32) -> Scope
    ensures { result ≡ spec_scope_of word }
{
    Scope {
        start: Start::From(span_of(word)),
        condition: bits(word, 20, 4),
        index: CodeBytes(bits(word, 24, 8) as usize),
    }
}

// Whether n scope words have Res 0. The caller has tested that they are there: they belong to a record that is lent whole.
pub fn res_zero(xdata: &[u8], at: usize, n: usize) -> bool
    requires { at + 4 * n ≤ length xdata.now }
    ensures { result ≡ spec_res_zero xdata.now at 0 n }
{
    for k in 0..n {
        if bits(lent::word32_in(xdata, at + 4 * k), 18, 2) != 0 {
            return false;
        }
    }
    true
}

// The handler's RVA; 0 if none.
pub fn handler_of(rva: u32, xdata: &[u8], at: u32, h: Head) -> u32
    ensures { result ≡ handler_at (lent rva xdata.now) at h }
{
    if has_handler(h) {
        return lent::word_at(rva, xdata, (at as u64) + handler_offset(h));
    }
    0
}
