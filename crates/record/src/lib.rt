// Records, packed and full, as one plan beside their code bytes: what stands for a Shape in code. It knows neither registers nor the
// stack.
#![tactic(auto)]

ghost use Rattle.std.specs.Prelude.{◌≡◌, ◌+◌, ◌-◌, ◌≤◌, ◌<◌, eqb, length, if◌then◌else◌};
ghost use Rattle.lent.specs.Lent.{lent};
ghost use Rattle.words.specs.Answer.{verdict};
ghost use Rattle.record.specs.Record.{shape_at};
ghost use Rattle.packed.specs.Packed.{Fit};
ghost use Rattle.xdata.specs.Xdata.{E, codes_offset as spec_codes_offset};
ghost use Rattle.record.specs.AsCoded.Plan.{codes_end, codes_in, read_of, scope_in, scopes_end, scopes_of as spec_scopes_of, plan_of, full_by, after_head, full_plan, packed_plan_by, packed_by as spec_packed_by, packed_plan};

use packed::Packed;
use packed_codes::CodesOf;
use unwinding::{Scope, Start};
use words::{CodeBytes, Refusal};
use xdata::Head;

// A record's epilogues: each ends where the function does and has this index, or they are scope words from this offset of the .xdata on.
#[derive(Clone, Copy)]
pub enum Scopes {
    Ending(CodeBytes),
    Listed(usize),
}

// A record's shape but for its code bytes: the function's length in bytes, whether it has no prologue, how many epilogues there are and
// where they stand, and the handler's RVA, 0 if none.
#[derive(Clone, Copy)]
pub struct Plan {
    pub span: u32,
    pub fragment: bool,
    pub count: usize,
    pub scopes: Scopes,
    pub handler: u32,
}

// A part of the .xdata.
#[derive(Clone, Copy)]
pub struct Part {
    pub start: usize,
    pub len: usize,
}

// A record's code bytes: sixteen that were written, or a part of the .xdata.
#[derive(Clone, Copy)]
pub enum Codes {
    Written([u8; 16]),
    Lent(Part),
}

// A record of either kind: its plan beside its code bytes.
#[derive(Clone, Copy)]
pub struct Record {
    pub plan: Plan,
    pub codes: Codes,
}

impl Codes {
    // The code bytes themselves.
    pub fn of<'a>(&'a self, xdata: &'a [u8]) -> &'a [u8]
        requires { codes_end self.now ≤ length xdata.now }
        ensures { result.now ≡ codes_in self.now xdata.now }
    {
        match self {
            Codes::Written(bytes) => bytes,
            Codes::Lent(part) => &xdata[part.start..part.start + part.len],
        }
    }
}

// The scope of a number; a plan has as many as its count says, and whoever read the plan has found their words in the .xdata.
pub fn scope(plan: Plan, xdata: &[u8], k: usize) -> Scope
    requires { scopes_end plan.scopes (k + 1) ≤ length xdata.now }
    ensures { result ≡ scope_in plan.scopes xdata.now k }
{
    let scopes = plan.scopes;
    match scopes {
        Scopes::Ending(i) => Scope {
            start: Start::Ending,
            condition: 14,
            index: i,
        },
        Scopes::Listed(at) => xdata::scope_of(lent::word32_in(xdata, at + 4 * k)),
    }
}

// An RVA's offset in the .xdata.
fn offset(rva: u32, at: u32) -> usize
    ensures { (result ≡ at - rva) × (result < 4294967296) }
{
    if at < rva {
        return 0;
    }
    (at - rva) as usize
}

// Where a record's scopes stand.
fn scopes_of(offset: usize, h: Head) -> Scopes
    requires { offset < 4294967296 }
    ensures { result ≡ spec_scopes_of offset h }
{
    if xdata::has_last(h) {
        return Scopes::Ending(CodeBytes(h.count as usize));
    }
    Scopes::Listed(offset + (h.bytes as usize))
}

// How many epilogues a record has.
fn epilogues(h: Head) -> usize
    ensures { result ≡ (if E h then 1 else h.count) }
{
    if xdata::has_last(h) {
        return 1;
    }
    h.count as usize
}

// The plan of a record whose head was read.
fn plan_of(rva: u32, xdata: &[u8], at: u32, h: Head) -> Plan
    ensures { result ≡ plan_of (lent rva xdata.now) at h }
{
    Plan {
        span: xdata::span_of(h.word),
        fragment: xdata::is_fragment(h),
        count: epilogues(h),
        scopes: scopes_of(offset(rva, at), h),
        handler: xdata::handler_of(rva, xdata, at, h),
    }
}

// The record of a head.
fn full_of(rva: u32, xdata: &[u8], at: u32, h: Head) -> Record
    ensures { result ≡ full_by (lent rva xdata.now) at h }
{
    let len = words::code_word_bytes(h.codewords);
    Record {
        plan: plan_of(rva, xdata, at, h),
        codes: Codes::Lent(Part {
            start: offset(rva, at) + (xdata::codes_offset(h) as usize),
            len: len.0,
        }),
    }
}

// The same, if its scopes have Res 0; they are lent, as the head's test of its whole record says.
fn after_head(rva: u32, xdata: &[u8], at: u32, h: Head) -> Result<Record, Refusal>
    requires { (rva ≤ at) × (at + spec_codes_offset h ≤ rva + length xdata.now) }
    ensures { result ≡ after_head (lent rva xdata.now) at h }
{
    let first = offset(rva, at) + (h.bytes as usize);
    if xdata::res_zero(xdata, first, xdata::scope_count(h) as usize) {
        return Ok(full_of(rva, xdata, at, h));
    }
    Err(Refusal::Reserved)
}

// The full record at an RVA: what its head is refused for, then its scopes' Res (RULES 9.52).
fn full(rva: u32, xdata: &[u8], at: u32) -> Result<Record, Refusal>
    ensures { result ≡ full_plan (lent rva xdata.now) at }
{
    let head = xdata::head_at(rva, xdata, at)?;
    after_head(rva, xdata, at, head)
}

// A packed record has no epilogue for Ret=3, else one (RULES 4.7).
fn packed_epilogues(ret: u32) -> usize
    ensures { result ≡ (if eqb ret 3 then 0 else 1) }
{
    if ret == 3 {
        return 0;
    }
    1
}

// The plan of a packed record whose second list has this index.
fn plan_by(p: Packed, first: CodeBytes) -> Plan
    requires { Fit p }
    ensures { result ≡ packed_plan_by p first }
{
    Plan {
        span: words::halfword_bytes(p.length) as u32,
        fragment: p.flag == 2,
        count: packed_epilogues(p.ret),
        scopes: Scopes::Ending(first),
        handler: 0,
    }
}

// The record of an allowed word and its code bytes.
fn packed_by(word: u32, c: CodesOf) -> Record
    ensures { result ≡ spec_packed_by word c }
{
    Record {
        plan: plan_by(packed::fields(word), c.first),
        codes: Codes::Written(c.bytes),
    }
}

// The packed record of a word: its plan and its code bytes.
#[tactic(auto, unfolding(crate::specs::AsCoded::Plan::packed_plan))]
fn packed(word: u32) -> Result<Record, Refusal>
    ensures { result ≡ packed_plan word }
{
    let c = packed_codes::write_codes(word)?;
    Ok(packed_by(word, c))
}

// The record that word 1 of a .pdata record names, by its Flag (RULES 2.2).
pub fn read(rva: u32, xdata: &[u8], word: u32) -> Result<Record, Refusal>
    ensures { result ≡ read_of (lent rva xdata.now) word }
{
    if words::bits(word, 0, 2) == 0 {
        return full(rva, xdata, word);
    }
    packed(word)
}

// 4 and 5 for word 1 of a .pdata record (RULES 9.51, 9.52).
pub fn judge(rva: u32, xdata: &[u8], word: u32) -> Result<(), Refusal>
    ensures { result ≡ verdict (shape_at (lent rva xdata.now) word) }
{
    read(rva, xdata, word)?;
    Ok(())
}
