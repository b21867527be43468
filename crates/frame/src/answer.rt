// The caller of a frame, in place: by no covering record, or by the record found.
ghost use Rattle.std.specs.Prelude.{◌≡◌, ℕ, ◌-◌, List};
ghost use Rattle.words.specs.Bits.{even};
ghost use Rattle.lent.specs.Lent.{lent};
ghost use Rattle.machine.specs.AsCoded.Answers.{regs};
ghost use Rattle.frame.specs.Frame.{uncovered as uncovered_of};
ghost use Rattle.frame.specs.AsCoded.FromPlace.{ran_from as spec_ran_from, by_word};
ghost use Rattle.frame.specs.AsCoded.InPlace.{came_to};

use super::Came;
use codes::RowTable;
use words::{CodeBytes, Place, Refusal};

// Nothing covers the pc: a leaf in the first frame, 12 in a later one (RULES 6.2). The lists stay as they are.
pub fn uncovered(first: bool, sp: u32, lr: u32) -> Result<Came, Refusal>
    ensures { (r d : List ℕ) (pc : ℕ) → came_to result r d ≡ uncovered_of first (regs r sp lr pc d) }
{
    if first {
        return Ok(Came {
            sp,
            lr,
            place: Place::Leaf,
            handler: 0,
            codes: 0,
        });
    }
    Err(Refusal::NoRecord)
}

// The codes from an index run, and 11.
fn ran_from(
    t: &RowTable,
    codes: &[u8],
    index: CodeBytes,
    place: Place,
    handler: u32,
    r: &mut [u32; 13],
    d: &mut [u64; 32],
    sp: u32,
    lr: u32,
    base: u32,
    stack: &[u8],
) -> Result<Came, Refusal>
    ensures { (pc : ℕ) → came_to result r.new d.new ≡ spec_ran_from (lent base stack.now) codes.now handler (regs r.old sp lr pc d.old) place index }
{
    let ran = machine::run_in(t, codes, index, r, d, sp, lr, base, stack)?;
    if ran.sp < sp {
        return Err(Refusal::SpFell);
    }
    Ok(Came {
        sp: ran.sp,
        lr: ran.lr,
        place,
        handler,
        codes: ran.codes,
    })
}

// How far the pc is into a function (RULES 5.1).
pub fn offset_of(image: u32, start: u32, pc: u32) -> u64
    ensures { result ≡ even pc - image - start }
{
    let at = words::even(pc);
    if at < image {
        return 0;
    }
    if at - image < start {
        return 0;
    }
    (at - image - start) as u64
}

// By word 1 of the record found, at an offset.
pub fn by_word(
    t: &RowTable,
    first: bool,
    rva: u32,
    xdata: &[u8],
    base: u32,
    stack: &[u8],
    word: u32,
    o: u64,
    r: &mut [u32; 13],
    d: &mut [u64; 32],
    sp: u32,
    lr: u32,
) -> Result<Came, Refusal>
    ensures { (pc : ℕ) → came_to result r.new d.new ≡ by_word first (lent rva xdata.now) word (lent base stack.now) o (regs r.old sp lr pc d.old) }
{
    let p = place::at(t, rva, xdata, word, o)?;
    let codes = p.codes;
    match p.at? {
        Some(at) => ran_from(
            t,
            codes.of(xdata),
            at.index,
            at.place,
            at.handler,
            r,
            d,
            sp,
            lr,
            base,
            stack,
        ),
        None => uncovered(first, sp, lr),
    }
}
