// Whether a compiler's record fits its function's code (RULES 13.9, 13.10): each instruction of the prologue and of the epilogues is the one
// that its code stands for. It knows neither registers nor files.
#![tactic(auto)]

ghost use Rattle.std.specs.Prelude.{◌≡◌, true, ◌^◌, ◌≤◌, ◌<◌, length, Ok};
ghost use Rattle.words.specs.Answer.{verdict};
ghost use Rattle.lent.specs.Lent.{lent};
ghost use Rattle.record.specs.AsCoded.Plan.{scopes_from};
ghost use Rattle.xdata.specs.Xdata.{fit_xdata};
ghost use Rattle.place.specs.Judged.{view_at};
ghost use Rattle.place.specs.AsCoded.Look.{Ready};
ghost use Rattle.fitting.specs.Fitting.{fit_number, fitted};
ghost use Rattle.fitting.specs.declared.FitRefusal.TheVariants.{Record, Differs};
ghost use Rattle.fitting.specs.AsCoded.Passes.{open_pass, scope_pass, scopes_pass, plan_pass, plan_fitted};

use codes::RowTable;
use comparing::Differs;
use place::layout;
use record::Plan;
use unwinding::Scope;
use words::{CodeBytes, Refusal};

// Why a record does not fit: it is refused itself, or the .xdata (1, 4 to 7); the code is shorter than the function (18); the instruction at an
// offset is not the one of its code (17).
#[derive(Clone, Copy)]
pub enum FitRefusal {
    Record(Refusal),
    Short,
    Differs(u64),
}

impl From<Refusal> for FitRefusal {
    ghost from_gives = { λ why r. r ≡ Record why };

    fn from(why: Refusal) -> FitRefusal {
        FitRefusal::Record(why)
    }
}

impl From<Differs> for FitRefusal {
    ghost from_gives = { λ d r. r ≡ Differs d.0 };

    fn from(d: Differs) -> FitRefusal {
        FitRefusal::Differs(d.0)
    }
}

// The number of a refusal (RULES 9).
pub fn number(r: FitRefusal) -> u32
    ensures { result ≡ fit_number r }
{
    match r {
        FitRefusal::Record(why) => words::number(why),
        FitRefusal::Short => 18,
        FitRefusal::Differs(_) => 17,
    }
}

// The prologue, if there is one.
fn opened(t: &RowTable, codes: &[u8], fragment: bool, code: &[u8]) -> Result<(), Differs>
    requires { length codes.now ≤ 1020 }
    ensures { result ≡ open_pass code.now codes.now fragment }
{
    if fragment {
        return Ok(());
    }
    match reader::scan(t, codes, CodeBytes(0)) {
        Ok(found) => comparing::prologue(t, codes, code, layout::bytes_of(found.list)),
        Err(_) => Ok(()),
    }
}

// The epilogue of a scope, whose codes are measured again: it may end where the function does.
fn scope(t: &RowTable, codes: &[u8], span: u64, e: Scope, code: &[u8]) -> Result<(), Differs>
    requires { (length codes.now ≤ 1020) × (span < 2 ^ 32) }
    ensures { result ≡ scope_pass code.now codes.now span e }
{
    let index = e.index;
    match layout::measure(t, codes, index) {
        Ok(size) => {
            let w = layout::epilogue_span(e, span, size);
            comparing::epilogue(t, codes, index, code, w.start)
        }
        Err(_) => Ok(()),
    }
}

// The epilogues in turn.
fn scopes(t: &RowTable, codes: &[u8], plan: Plan, xdata: &[u8], code: &[u8]) -> Result<(), Differs>
    requires { Ready codes.now plan xdata.now }
    ensures { result ≡ scopes_pass code.now codes.now plan.span (scopes_from plan.scopes xdata.now 0 plan.count) }
{
    let span = layout::span_of(plan);
    let n = layout::count_of(plan);
    for k in 0..n {
        let e = record::scope(plan, xdata, k);
        scope(t, codes, span, e, code)?;
    }
    Ok(())
}

// The prologue, and then the epilogues.
fn compare(t: &RowTable, codes: &[u8], plan: Plan, xdata: &[u8], code: &[u8]) -> Result<(), Differs>
    requires { Ready codes.now plan xdata.now }
    ensures { result ≡ plan_pass code.now codes.now plan xdata.now }
{
    opened(t, codes, plan.fragment, code)?;
    scopes(t, codes, plan, xdata, code)
}

// 18 and 17, by a record's plan and code bytes.
fn check_plan(
    t: &RowTable,
    codes: &[u8],
    plan: Plan,
    xdata: &[u8],
    code: &[u8],
) -> Result<(), FitRefusal>
    requires { Ready codes.now plan xdata.now }
    ensures { result ≡ plan_fitted code.now codes.now plan xdata.now }
{
    if (code.len() as u64) < layout::span_of(plan) {
        return Err(FitRefusal::Short);
    }
    compare(t, codes, plan, xdata, code)?;
    Ok(())
}

// The same for word 1 of a .pdata record that 4 to 7 do not refuse.
fn check_read(rva: u32, xdata: &[u8], word: u32, code: &[u8]) -> Result<(), FitRefusal>
    requires { (fit_xdata (lent rva xdata.now) ≡ true) × (verdict (view_at (lent rva xdata.now) word) ≡ Ok tt) }
    ensures { result ≡ fitted (lent rva xdata.now) word code.now }
{
    let t = RowTable::new();
    let f = record::read(rva, xdata, word).unwrap();
    let codes = f.codes;
    check_plan(&t, codes.of(xdata), f.plan, xdata, code)
}

// Whether the record that word 1 of a .pdata record names fits a function's code: 1 of the .xdata, 4 to 7, 18, 17 (RULES 13.10).
pub fn check(rva: u32, xdata: &[u8], word: u32, code: &[u8]) -> Result<(), FitRefusal>
    ensures { result ≡ fitted (lent rva xdata.now) word code.now }
{
    if !xdata::fit(rva, xdata) {
        return Err(FitRefusal::Record(Refusal::UnfitInput));
    }
    place::judge(rva, xdata, word)?;
    check_read(rva, xdata, word, code)
}
