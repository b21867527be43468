// Where an offset stands in a record, and the index at which the codes that run there begin: 4 and 5 for the record, 6 and 7 without an
// offset, 9 and 10 with one. It knows no registers. The code bytes of a record are at most 255 words.
#![tactic(auto)]

pub mod layout; // the epilogues of a record in one pass

ghost use Rattle.std.specs.Prelude.{◌≡◌, ◌-◌, ◌^◌, ◌≤◌, ◌<◌, ltb, length, if◌then◌else◌};
ghost use Rattle.words.specs.Units.{code_bytes};
ghost use Rattle.reader.specs.AsCoded.Skip.{skip_at};
ghost use Rattle.record.specs.AsCoded.Plan.{scopes_from};
ghost use Rattle.place.specs.AsCoded.Look.{Ready, by_skip, in_epilogue as spec_in_epilogue, in_scope as spec_in_scope, in_here as spec_in_here, in_seen as spec_in_seen, spot_of};
ghost use Rattle.lent.specs.Lent.{lent};
ghost use Rattle.words.specs.Answer.{verdict};
ghost use Rattle.place.specs.Judged.{view_at};
ghost use Rattle.place.specs.AsCoded.Placed.{in_plan as spec_in_plan, any_placed};

use codes::RowTable;
use record::{Codes, Plan};
use unwinding::Scope;
use words::{CodeBytes, Place, Refusal};

// An epilogue as its codes make it: it takes the bytes from start up to start + size.
#[derive(Clone, Copy)]
pub struct EpilogueSpan {
    pub start: u64,
    pub size: u64,
    pub condition: u32,
    pub index: CodeBytes,
}

// Of the epilogues seen so far: below which offset no later one may start, where the last that is not empty ends, whether 7 is not given,
// and the number of the one that the offset falls into, which is that of none where there is none.
#[derive(Clone, Copy)]
pub struct Seen {
    pub floor: u64,
    pub reach: u64,
    pub fits: bool,
    pub at: usize,
}

// The bytes of a record's prologue, and what a pass over its epilogues saw, or 6. The prologue has 0 where its own codes are refused.
#[derive(Clone, Copy)]
pub struct Passed {
    pub prologue: u64,
    pub seen: Result<Seen, Refusal>,
}

// A place, and the index of the first code that runs there.
#[derive(Clone, Copy)]
pub struct Spot {
    pub place: Place,
    pub index: CodeBytes,
}

// Where an offset stands in a record whose function covers it: a place, and the index of the first code that runs there. The handler's
// RVA is 0 if there is none.
#[derive(Clone, Copy)]
pub struct Placed {
    pub place: Place,
    pub index: CodeBytes,
    pub handler: u32,
}

// Where an offset stands in a record that was read (RULES 5.2): whether its function covers it, its handler then (0 if there is none), its
// code bytes, and its place or the refusal (6, 7, 9, 10).
#[derive(Clone, Copy)]
pub struct AnyPlaced {
    pub at: Result<Option<Placed>, Refusal>,
    pub covers: bool,
    pub handler: u32,
    pub codes: Codes,
}

// How far an offset is past another; 0 where it is not.
fn past(o: u64, from: u64) -> u64
    ensures { result ≡ o - from }
{
    if from <= o { o - from } else { 0 }
}

// In the prologue: skips the codes whose instructions have still to run (RULES 5.8).
fn in_prologue(t: &RowTable, codes: &[u8], k: u64) -> Result<Spot, Refusal>
    ensures { result ≡ by_skip Place.Prologue (skip_at codes.now (code_bytes 0) k) }
{
    match reader::skip(t, codes, CodeBytes(0), k) {
        Some(index) => Ok(Spot {
            place: Place::Prologue,
            index,
        }),
        None => Err(Refusal::InsideInstruction),
    }
}

// In an epilogue: skips the codes whose instructions have run (RULES 5.9); 9 before 10.
fn in_epilogue(t: &RowTable, codes: &[u8], o: u64, w: EpilogueSpan) -> Result<Spot, Refusal>
    ensures { result ≡ spec_in_epilogue codes.now o w }
{
    match reader::skip(t, codes, w.index, past(o, w.start)) {
        Some(index) => {
            if w.condition == 14 {
                Ok(Spot {
                    place: Place::Epilogue,
                    index,
                })
            } else {
                Err(Refusal::Conditional)
            }
        }
        None => Err(Refusal::InsideInstruction),
    }
}

// In the epilogue of a scope, whose codes are read again: the pass over the epilogues keeps only its number.
fn in_scope(t: &RowTable, codes: &[u8], span: u64, o: u64, e: Scope) -> Result<Spot, Refusal>
    requires { (length codes.now ≤ 1020) × (span < 2 ^ 32) }
    ensures { result ≡ spec_in_scope codes.now span o e }
{
    let size = layout::measure(t, codes, e.index)?;
    in_epilogue(t, codes, o, layout::epilogue_span(e, span, size))
}

// In the epilogue of a number, or, where none has it, in the body.
fn in_here(
    t: &RowTable,
    codes: &[u8],
    plan: Plan,
    xdata: &[u8],
    o: u64,
    at: usize,
) -> Result<Spot, Refusal>
    requires { Ready codes.now plan xdata.now }
    ensures { result ≡ spec_in_here codes.now plan.span (scopes_from plan.scopes xdata.now 0 plan.count) o at }
{
    if at < plan.count {
        let e = record::scope(plan, xdata, at);
        return in_scope(t, codes, layout::span_of(plan), o, e);
    }
    Ok(Spot {
        place: Place::Body,
        index: CodeBytes(0),
    })
}

// 7, and then the place (RULES 5.6).
fn in_seen(
    t: &RowTable,
    codes: &[u8],
    plan: Plan,
    xdata: &[u8],
    o: u64,
    q: Passed,
) -> Result<Spot, Refusal>
    requires { Ready codes.now plan xdata.now }
    ensures { result ≡ spec_in_seen codes.now plan.span (scopes_from plan.scopes xdata.now 0 plan.count) o q }
{
    let seen = q.seen?;
    if !seen.fits {
        return Err(Refusal::BadLayout);
    }
    if o < q.prologue {
        return in_prologue(t, codes, q.prologue - o);
    }
    in_here(t, codes, plan, xdata, o, seen.at)
}

// The place of an offset in a record, and the index of the first code that runs there.
fn spot_in(t: &RowTable, codes: &[u8], plan: Plan, xdata: &[u8], o: u64) -> Result<Spot, Refusal>
    requires { Ready codes.now plan xdata.now }
    ensures { result ≡ spot_of codes.now plan.span plan.fragment (scopes_from plan.scopes xdata.now 0 plan.count) o }
{
    let q = layout::pass(t, codes, plan, xdata, o);
    in_seen(t, codes, plan, xdata, o, q)
}

// By a record's plan, whose scope words are in the .xdata, and code bytes; none where its function does not cover the offset.
fn in_plan(
    t: &RowTable,
    codes: &[u8],
    plan: Plan,
    xdata: &[u8],
    o: u64,
) -> Result<Option<Placed>, Refusal>
    requires { Ready codes.now plan xdata.now }
    ensures { result ≡ spec_in_plan plan codes.now xdata.now o }
{
    if o < plan.span as u64 {
        let s = spot_in(t, codes, plan, xdata, o)?;
        return Ok(Some(Placed {
            place: s.place,
            index: s.index,
            handler: plan.handler,
        }));
    }
    Ok(None)
}

// A place or a refusal, with what is told beside either.
fn any_of(plan: Plan, codes: Codes, o: u64, at: Result<Option<Placed>, Refusal>) -> AnyPlaced
    ensures { result ≡ (record { at = at; covers = ltb o plan.span; handler = if ltb o plan.span then plan.handler else 0; codes = codes }) }
{
    let covers = o < plan.span as u64;
    let handler = if covers { plan.handler } else { 0 };
    AnyPlaced {
        at,
        covers,
        handler,
        codes,
    }
}

// Where an offset stands in the record that word 1 of a .pdata record names; 4 or 5 where it is not read. The table of codes is lent.
pub fn at(t: &RowTable, rva: u32, xdata: &[u8], word: u32, o: u64) -> Result<AnyPlaced, Refusal>
    ensures { result ≡ any_placed (lent rva xdata.now) word o }
{
    let f = record::read(rva, xdata, word)?;
    let codes = f.codes;
    let at = in_plan(t, codes.of(xdata), f.plan, xdata, o);
    Ok(any_of(f.plan, codes, o, at))
}

// 4 to 7 for word 1 of a .pdata record, without a pc.
pub fn judge(rva: u32, xdata: &[u8], word: u32) -> Result<(), Refusal>
    ensures { result ≡ verdict (view_at (lent rva xdata.now) word) }
{
    let f = record::read(rva, xdata, word)?;
    let t = RowTable::new();
    let codes = f.codes;
    layout::judge(&t, codes.of(xdata), f.plan, xdata)
}
