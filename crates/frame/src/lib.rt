// One frame: the checks of its inputs in the order of RULES 9.50, the record of its pc, the place, and the caller. It knows neither
// lists nor files.
#![tactic(auto)]

use codes::RowTable;
use machine::Regs;
use pdata::{Checked, Entry};

mod answer; // the caller by the record found

ghost use Rattle.std.specs.Prelude.{◌≡◌, List, ℕ};
ghost use Rattle.lent.specs.Lent.{lent};
ghost use Rattle.frame.specs.Frame.{inputs, fit_stack as spec_fit_stack, checked, unwound, told_of, after_find as spec_after_find, frame};
ghost use Rattle.machine.specs.AsCoded.Answers.{regs};
ghost use Rattle.frame.specs.AsCoded.FromPlace.{Answers};
ghost use Rattle.frame.specs.AsCoded.InPlace.{came_to, Comes};

use words::{Place, Refusal};

// What is told of a frame beside its caller's registers (RULES 6.1).
#[derive(Clone, Copy)]
pub struct Told {
    pub place: Place,
    pub handler: u32,
    pub codes: usize,
}

// One frame's answer (RULES 6.1). A refusal has the registers as they came (RULES 6.7).
#[derive(Clone, Copy)]
pub struct Unwound {
    pub regs: Regs,
    pub told: Result<Told, Refusal>,
}

// What every answer counts as beside the registers: a refused frame is told with place leaf, handler 0 and 0 codes (RULES 6.7).
impl Unwound {
    pub fn place(&self) -> Place
        ensures { result ≡ (told_of self.now).place }
    {
        match self.told {
            Ok(told) => told.place,
            Err(_) => Place::Leaf,
        }
    }

    pub fn handler(&self) -> u32
        ensures { result ≡ (told_of self.now).handler }
    {
        match self.told {
            Ok(told) => told.handler,
            Err(_) => 0,
        }
    }

    pub fn codes(&self) -> usize
        ensures { result ≡ (told_of self.now).codes }
    {
        match self.told {
            Ok(told) => told.codes,
            Err(_) => 0,
        }
    }
}

// What a frame came to in place: r0-r12 and d0-d31 are lent and stand as the caller has them, SP and LR are here, and the pc is LR with bit
// 0 cleared. After a refusal the lent ones do not count.
#[derive(Clone, Copy)]
pub struct Came {
    pub sp: u32,
    pub lr: u32,
    pub place: Place,
    pub handler: u32,
    pub codes: usize,
}

// What 1 asks of the stack (RULES 9.1).
fn fit_stack(base: u32, stack: &[u8]) -> bool
    ensures { result ≡ spec_fit_stack (lent base stack.now) }
{
    base % 4 == 0 && stack.len() % 4 == 0 && (base as u64) + (stack.len() as u64) <= 4294967292
}

// What the tables alone show, which a walk asks once.
pub fn check(pdata: &[u8], rva: u32, xdata: &[u8], base: u32, stack: &[u8]) -> Checked
    ensures { result ≡ checked (inputs 0 pdata.now rva xdata.now base stack.now) }
{
    let table = pdata::check(pdata);
    Checked {
        fit: fit_stack(base, stack) && xdata::fit(rva, xdata) && table.fit,
        sorted: table.sorted,
    }
}

// After the search: the SP that was given (8), and then the caller.
fn after_find(
    t: &RowTable,
    first: bool,
    found: Result<Option<Entry>, Refusal>,
    image: u32,
    rva: u32,
    xdata: &[u8],
    base: u32,
    stack: &[u8],
    r: &mut [u32; 13],
    d: &mut [u64; 32],
    sp: u32,
    lr: u32,
    pc: u32,
) -> Result<Came, Refusal>
    ensures { (p : List ℕ) → came_to result r.new d.new ≡ spec_after_find first (inputs image p rva xdata.now base stack.now) (regs r.old sp lr pc d.old) found }
{
    match found {
        Err(why) => Err(why),
        Ok(None) => {
            if machine::stands(base, stack, sp as u64) {
                return answer::uncovered(first, sp, lr);
            }
            Err(Refusal::BadStack)
        }
        Ok(Some(e)) => {
            let o = answer::offset_of(image, e.start, pc);
            if machine::stands(base, stack, sp as u64) {
                return answer::by_word(t, first, rva, xdata, base, stack, e.word, o, r, d, sp, lr);
            }
            Err(Refusal::BadStack)
        }
    }
}

// One frame in place, first of a walk or later, over tables whose checks were made.
pub fn frame_in(
    t: &RowTable,
    first: bool,
    c: Checked,
    image: u32,
    pdata: &[u8],
    rva: u32,
    xdata: &[u8],
    base: u32,
    stack: &[u8],
    r: &mut [u32; 13],
    d: &mut [u64; 32],
    sp: u32,
    lr: u32,
    pc: u32,
) -> Result<Came, Refusal>
    ensures { Comes first c (inputs image pdata.now rva xdata.now base stack.now) (regs r.old sp lr pc d.old) result r.new d.new }
{
    if c.fit {
        let found = pdata::find_in(c, image, pdata, pc);
        return after_find(
            t, first, found, image, rva, xdata, base, stack, r, d, sp, lr, pc,
        );
    }
    Err(Refusal::UnfitInput)
}

// The whole answer of what a frame came to in place. A refusal has the registers as they came (RULES 6.7).
fn answered(g: Regs, u: Result<Came, Refusal>, r: [u32; 13], d: [u64; 32]) -> Unwound
    ensures { result ≡ unwound g (came_to u r d) }
{
    match u {
        Err(why) => Unwound {
            regs: g,
            told: Err(why),
        },
        Ok(c) => Unwound {
            regs: Regs {
                r,
                sp: c.sp,
                lr: c.lr,
                pc: words::even(c.lr),
                d,
            },
            told: Ok(Told {
                place: c.place,
                handler: c.handler,
                codes: c.codes,
            }),
        },
    }
}

// One frame, first of a walk or later, over tables whose checks were made.
pub fn frame_of(
    first: bool,
    c: Checked,
    image: u32,
    pdata: &[u8],
    rva: u32,
    xdata: &[u8],
    base: u32,
    stack: &[u8],
    g: Regs,
) -> Unwound
    ensures { Answers first c (inputs image pdata.now rva xdata.now base stack.now) g result }
{
    let mut r = g.r;
    let mut d = g.d;
    let t = RowTable::new();
    let u = frame_in(
        &t, first, c, image, pdata, rva, xdata, base, stack, &mut r, &mut d, g.sp, g.lr, g.pc,
    );
    answered(g, u, r, d)
}

// One frame.
pub fn unwind(
    image: u32,
    pdata: &[u8],
    rva: u32,
    xdata: &[u8],
    base: u32,
    stack: &[u8],
    g: Regs,
) -> Unwound
    ensures { result ≡ unwound g (frame (inputs image pdata.now rva xdata.now base stack.now) g) }
{
    let c = check(pdata, rva, xdata, base, stack);
    frame_of(true, c, image, pdata, rva, xdata, base, stack, g)
}
