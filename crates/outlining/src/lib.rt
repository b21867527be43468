// The listing of a report with each frame's regions under its line (RULES 8.14): part by part, as bytes into a lent buffer. It neither reads
// nor writes.
#![tactic(auto)]

ghost use mathlib.Core.List.{[], flatten};
ghost use Rattle.std.specs.Prelude.{◌≡◌, ◌-◌, ◌≤◌, length, IfOk};
ghost use Rattle.pdata.specs.Pdata.{find, checked as starts_of};
ghost use Rattle.frame.specs.Frame.{inputs};
ghost use Rattle.text.specs.Overlay.{overlay, Laid};
ghost use Rattle.region_text.specs.RegionText.{regions_text};
ghost use Rattle.outlining.specs.Outlined.{regions_by, regions_found, region_lines, outlined};
ghost use Rattle.outlining.specs.AsCoded.Parts.{opening, turn_part as spec_turn_part, next_at, Stands, TurnWrites, Ready, Writes, begun_at, inputs_at, standing_at, parts_at};

use codes::RowTable;
use machine::Regs;
use pdata::{Checked, Entry};
use report::{Parts, read_report};
use text::put_text;
use walking::{Frame, Going, Standing, Stop};
use words::{Place, Refusal};

// No part is larger, and no outline.
pub const PART_BYTES: usize = 12288;

pub const OUTLINE_BYTES: usize = 2747253;

// Where an outline stands: the report's parts, what its tables showed to a walk, and the .pdata to finding; the registers, whether their pc 0
// ends the walk, the frames so far and the sum of their codes.
#[derive(Clone, Copy)]
pub struct At {
    pub parts: Parts,
    pub checked: Checked,
    pub starts: Checked,
    pub regs: Regs,
    pub end: bool,
    pub frames: usize,
    pub codes: usize,
}

// A part that was laid: the place behind it in the buffer, and where the outline stands then, if another one follows.
#[derive(Clone, Copy)]
pub struct Part {
    pub place: usize,
    pub next: Option<At>,
}

// An address as an RVA.
fn rva_of(image: u32, pc: u32) -> u32
    ensures { result ≡ pc - image }
{
    if pc < image {
        return 0;
    }
    pc - image
}

// The region lines of a .pdata record, for a pc.
fn put_record(
    out: &mut [u8],
    at: usize,
    image: u32,
    rva: u32,
    xdata: &[u8],
    e: Entry,
    pc: u32,
) -> usize
    ensures { Laid out.old at (regions_text (pc - image) (regions_by (inputs image [] rva xdata.now 0 []) e)) result out.new }
{
    if words::bits(e.word, 0, 2) == 0 {
        return region_text::put_regions(out, at, rva, xdata, e.word, rva_of(image, pc));
    }
    put_text(out, at, b"")
}

// The region lines of the record found for a pc.
fn put_found(
    out: &mut [u8],
    at: usize,
    starts: Checked,
    image: u32,
    pdata: &[u8],
    rva: u32,
    xdata: &[u8],
    pc: u32,
) -> usize
    requires { starts ≡ starts_of pdata.now }
    ensures { Laid out.old at (regions_text (pc - image) (regions_found (inputs image pdata.now rva xdata.now 0 []) (find image pdata.now pc))) result out.new }
{
    match pdata::find_in(starts, image, pdata, pc) {
        Ok(Some(e)) => put_record(out, at, image, rva, xdata, e, pc),
        Ok(None) => put_text(out, at, b""),
        Err(_) => put_text(out, at, b""),
    }
}

// The region lines of a frame: a leaf has no record.
fn put_lines(
    out: &mut [u8],
    at: usize,
    starts: Checked,
    image: u32,
    pdata: &[u8],
    rva: u32,
    xdata: &[u8],
    f: Frame,
) -> usize
    requires { starts ≡ starts_of pdata.now }
    ensures { Laid out.old at (region_lines (inputs image pdata.now rva xdata.now 0 []) f) result out.new }
{
    let place = f.place;
    match place {
        Place::Leaf => put_text(out, at, b""),
        Place::Prologue | Place::Body | Place::Epilogue => put_found(
            out, at, starts, image, pdata, rva, xdata, f.pc,
        ),
    }
}

// The heading, before the first frame.
fn put_opening(out: &mut [u8], at: usize, number: usize) -> usize
    ensures { Laid out.old at (opening number) result out.new }
{
    if number == 0 {
        return put_text(out, at, b"frame pc sp place\n");
    }
    put_text(out, at, b"")
}

// What a turn of the walk prints: the heading before the first, the frame's line and its region lines, or the last line.
fn put_turn(
    out: &mut [u8],
    at: usize,
    starts: Checked,
    image: u32,
    pdata: &[u8],
    rva: u32,
    xdata: &[u8],
    s: Standing,
    x: Result<Going, Stop>,
) -> usize
    requires { starts ≡ starts_of pdata.now }
    ensures { Laid out.old at (spec_turn_part (inputs image pdata.now rva xdata.now 0 []) s x) result out.new }
{
    let next = put_opening(out, at, s.frames);
    let next = listing::put_turn(out, next, s, x);
    match x {
        Ok(going) => put_lines(out, next, starts, image, pdata, rva, xdata, going.frame),
        Err(_) => next,
    }
}

// Where an outline stands after a turn that left these registers.
fn moved(a: At, n: Standing, r: [u32; 13], d: [u64; 32]) -> At
    ensures { result ≡ next_at a n r d }
{
    let parts = a.parts;
    let checked = a.checked;
    let starts = a.starts;
    let regs = Regs {
        r,
        sp: n.sp,
        lr: n.lr,
        pc: n.pc,
        d,
    };
    At {
        parts,
        checked,
        starts,
        regs,
        end: n.end,
        frames: n.frames,
        codes: n.codes,
    }
}

// The part of a turn over a report's tables and stack.
fn turn_part(pdata: &[u8], xdata: &[u8], stack: &[u8], a: At, out: &mut [u8], at: usize) -> Part
    requires { Stands (inputs a.parts.image pdata.now a.parts.rva xdata.now a.parts.base stack.now) a }
    ensures { TurnWrites (inputs a.parts.image pdata.now a.parts.rva xdata.now a.parts.base stack.now) a out.old at result out.new }
{
    let parts = a.parts;
    let checked = a.checked;
    let starts = a.starts;
    let g = a.regs;
    let rows = RowTable::new();
    let mut r = g.r;
    let mut d = g.d;
    let s = walking::stand(g, a.end, a.frames, a.codes);
    let x = walking::turn_in(
        &rows,
        checked,
        parts.image,
        pdata,
        parts.rva,
        xdata,
        parts.base,
        stack,
        &mut r,
        &mut d,
        s,
        256,
    );
    let place = put_turn(out, at, starts, parts.image, pdata, parts.rva, xdata, s, x);
    match x {
        Ok(going) => Part {
            place,
            next: Some(moved(a, going.next, r, d)),
        },
        Err(_) => Part { place, next: None },
    }
}

// The next part of a report's outline, at a place of the buffer.
pub fn next_part(file: &[u8], a: At, out: &mut [u8], at: usize) -> Part
    requires { Ready file.now a }
    ensures { Writes file.now a out.old at result out.new }
{
    let p = a.parts;
    turn_part(
        &file[p.pdata..p.xdata],
        &file[p.xdata..p.stack],
        &file[p.stack..p.end],
        a,
        out,
        at,
    )
}

// Before the first part: the report is read, and its tables are checked, once.
pub fn begin(file: &[u8]) -> Result<At, Refusal>
    ensures value { result ≡ begun_at file.now }
    ensures ready { IfOk result (Ready file.now) }
{
    let parts = read_report(file)?;
    let pdata = &file[parts.pdata..parts.xdata];
    let checked = frame::check(
        pdata,
        parts.rva,
        &file[parts.xdata..parts.stack],
        parts.base,
        &file[parts.stack..parts.end],
    );
    Ok(At {
        parts,
        checked,
        starts: pdata::check(pdata),
        regs: parts.regs,
        end: false,
        frames: 0,
        codes: 0,
    })
}

// All parts from where an outline stands, one behind the other from the buffer's start.
fn put_parts(file: &[u8], a: At, out: &mut [u8]) -> usize
    requires { Ready file.now a }
    ensures { Laid out.old 0 (flatten (parts_at (inputs_at file.now a) (standing_at a))) result out.new }
{
    let mut s = a;
    let mut place = 0;
    loop {
        let part = next_part(file, s, out, place);
        place = part.place;
        match part.next {
            Some(next) => s = next,
            None => return place,
        }
    }
}

// The outline of a report: OUTLINE_BYTES are always enough for it.
pub fn outline_report(file: &[u8], out: &mut [u8]) -> usize
    ensures value { (result ≡ length (outlined file.now)) × (out.new ≡ overlay out.old 0 (outlined file.now)) }
    ensures upper_bound { result ≤ 2747253 }
{
    match begin(file) {
        Ok(at) => put_parts(file, at, out),
        Err(why) => listing::put_refusal(out, why),
    }
}
