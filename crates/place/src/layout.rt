// The epilogues of a record in one pass: what refusals 6 and 7 ask of them, and the number of the one that an offset falls into.
ghost use Rattle.std.specs.Prelude.{◌≡◌, ◌&&◌, ◌||◌, ◌+◌, ◌^◌, ◌≤◌, ◌<◌, leb, ltb, length, if◌then◌else◌, Ok, IfOk};
ghost use Rattle.words.specs.Units.{code_bytes, halfwords, halfword_bytes as spec_halfword_bytes};
ghost use Rattle.words.specs.Answer.{verdict};
ghost use Rattle.unwinding.specs.View.{view};
ghost use Rattle.unwinding.specs.AsCoded.Lined.{next, reach_of as spec_reach_of};
ghost use Rattle.unwinding.specs.Shape.{start_of};
ghost use Rattle.codes.specs.Code.{size, codes_at};
ghost use Rattle.record.specs.AsCoded.Plan.{scopes_from, shape_by};
ghost use Rattle.place.specs.AsCoded.Look.{Ready, measured, span_by, see as see_of, look_from, passed, unseen as unseen_of};

use super::{EpilogueSpan, Passed, Seen};
use codes::RowTable;
use record::Plan;
use unwinding::{Scope, Start};
use words::{CodeBytes, Halfwords, Refusal};

// Where an epilogue of this size starts in a function of this length (RULES 5.4).
fn start_of(start: Start, span: u64, size: u64) -> u64
    requires { span < 2 ^ 32 }
    ensures { (result ≡ start_of start span size) × (result < 2 ^ 32) }
{
    match start {
        Start::From(at) => at as u64,
        Start::Ending => { if size <= span { span - size } else { 0 } }
    }
}

// The bytes of so many halfwords of instructions, as a pass counts them.
pub fn bytes_of(count: u64) -> u64
    requires { count < 4096 }
    ensures { result ≡ spec_halfword_bytes (halfwords count) }
{
    words::halfword_bytes(Halfwords(count as u32))
}

// The size of the code list at an index.
pub fn measure(t: &RowTable, codes: &[u8], index: CodeBytes) -> Result<u64, Refusal>
    requires { length codes.now ≤ 1020 }
    ensures { (result ≡ measured (codes_at codes.now index)) × IfOk result (λ n. n < 8192) }
{
    let found = reader::scan(t, codes, index)?;
    Ok(bytes_of(found.list + found.end))
}

// The same where the size of the list at another index is known: epilogues often share their codes.
fn measure_after(
    t: &RowTable,
    codes: &[u8],
    index: CodeBytes,
    at: CodeBytes,
    size: u64,
) -> Result<u64, Refusal>
    requires { (length codes.now ≤ 1020) × (measured (codes_at codes.now at) ≡ Ok size) × (size < 8192) }
    ensures { (result ≡ measured (codes_at codes.now index)) × IfOk result (λ n. n < 8192) }
{
    if index.0 == at.0 {
        return Ok(size);
    }
    measure(t, codes, index)
}

// The epilogue of a scope whose codes have this size.
pub fn epilogue_span(e: Scope, span: u64, size: u64) -> EpilogueSpan
    requires { (span < 2 ^ 32) × (size < 8192) }
    ensures { (result ≡ span_by span e size) × (result.start + result.size < 2 ^ 33) }
{
    let start = e.start;
    let index = e.index;
    EpilogueSpan {
        start: start_of(start, span, size),
        size: size,
        condition: e.condition,
        index: index,
    }
}

// Whether an epilogue from start up to end stands in line (RULES 5.5): not before floor, inside the function, and, unless it is empty,
// not before reach.
fn in_line(span: u64, floor: u64, reach: u64, start: u64, end: u64) -> bool
    ensures { result ≡ next span floor reach (record { from = start; to = end }) }
{
    floor <= start && end <= span && (end <= start || reach <= start)
}

// Where the last epilogue that is not empty ends.
fn reach_of(reach: u64, start: u64, end: u64) -> u64
    ensures { result ≡ spec_reach_of reach (record { from = start; to = end }) }
{
    if end <= start { reach } else { end }
}

// The number of the epilogue that the offset falls into, with one more to see: it falls into one at most where 7 is not given.
fn at_of(o: u64, at: usize, k: usize, start: u64, end: u64) -> usize
    ensures { result ≡ (if leb start o && ltb o end then k else at) }
{
    if start <= o && o < end { k } else { at }
}

// What has been seen with one epilogue more, of this number.
fn see(span: u64, o: u64, k: usize, s: Seen, w: EpilogueSpan) -> Seen
    requires { w.start + w.size < 2 ^ 33 }
    ensures { result ≡ see_of span o k s w }
{
    let start = w.start;
    let end = start + w.size;
    Seen {
        floor: start + 1,
        reach: reach_of(s.reach, start, end),
        fits: s.fits && in_line(span, s.floor, s.reach, start, end),
        at: at_of(o, s.at, k, start, end),
    }
}

// A function's length, with its range.
pub fn span_of(plan: Plan) -> u64
    ensures { (result ≡ plan.span) × (result < 2 ^ 32) }
{
    plan.span as u64
}

// How many epilogues a record has, with its range.
pub fn count_of(plan: Plan) -> usize
    ensures { (result ≡ plan.count) × (result < 2 ^ 64) }
{
    plan.count
}

// The epilogues of a record in turn, given the size of the code list at index 0. Codes are scanned anew only where the index changes.
fn look(
    t: &RowTable,
    codes: &[u8],
    plan: Plan,
    xdata: &[u8],
    o: u64,
    seen: Seen,
    first: u64,
) -> Result<Seen, Refusal>
    requires { Ready codes.now plan xdata.now × (measured (codes_at codes.now (code_bytes 0)) ≡ Ok first) × (first < 8192) }
    ensures { result ≡ look_from codes.now plan.span o 0 seen (scopes_from plan.scopes xdata.now 0 plan.count) }
{
    let span = span_of(plan);
    let n = count_of(plan);
    let mut s = seen;
    let mut size = first;
    let mut at = CodeBytes(0);
    for k in 0..n {
        let e = record::scope(plan, xdata, k);
        let index = e.index;
        size = measure_after(t, codes, index, at, size)?;
        at = index;
        s = see(span, o, k, s, epilogue_span(e, span, size));
    }
    Ok(s)
}

// Before any epilogue, of n: the prologue is what must not be shared.
fn unseen(span: u64, p: u64, n: usize) -> Seen
    ensures { result ≡ unseen_of span p n }
{
    Seen {
        floor: 0,
        reach: p,
        fits: p <= span,
        at: n,
    }
}

// The bytes of a prologue whose instructions take so many halfwords; a fragment has none.
fn prologue_of(fragment: bool, list: u64) -> u64
    requires { list < 4096 }
    ensures { result ≡ (if fragment then 0 else spec_halfword_bytes (halfwords list)) }
{
    if fragment { 0 } else { bytes_of(list) }
}

// The prologue and the epilogues of a record. The code list at index 0 is scanned once for both.
pub fn pass(t: &RowTable, codes: &[u8], plan: Plan, xdata: &[u8], o: u64) -> Passed
    requires { Ready codes.now plan xdata.now }
    ensures { result ≡ passed codes.now plan.span plan.fragment (scopes_from plan.scopes xdata.now 0 plan.count) o }
{
    match reader::scan(t, codes, CodeBytes(0)) {
        Ok(found) => {
            let p = prologue_of(plan.fragment, found.list);
            let first = bytes_of(found.list + found.end);
            let none = unseen(span_of(plan), p, plan.count);
            let seen = look(t, codes, plan, xdata, o, none, first);
            Passed { prologue: p, seen }
        }
        Err(why) => Passed {
            prologue: 0,
            seen: Err(why),
        },
    }
}

// 6 and 7 for a record's plan and code bytes. They are the same for each offset of the pass.
pub fn judge(t: &RowTable, codes: &[u8], plan: Plan, xdata: &[u8]) -> Result<(), Refusal>
    requires { Ready codes.now plan xdata.now }
    ensures { result ≡ verdict (view size codes_at (shape_by plan codes.now xdata.now)) }
{
    let q = pass(t, codes, plan, xdata, 0);
    let seen = q.seen?;
    if seen.fits {
        Ok(())
    } else {
        Err(Refusal::BadLayout)
    }
}
