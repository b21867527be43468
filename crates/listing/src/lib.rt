// The listing of a report, as bytes (RULES 8.3): a heading, a line for each frame, and why the walk stopped. It neither reads nor
// writes.
#![tactic(auto)]

ghost use Rattle.std.specs.Prelude.{[], ◌∷◌, ◌++◌, ◌≡◌, ◌≤◌, length};
ghost use Rattle.frame.specs.Frame.{inputs};
ghost use Rattle.walking.specs.Walk.{walk};
ghost use Rattle.text.specs.Text.{text};
ghost use Rattle.text.specs.Overlay.{overlay, Laid};
ghost use Rattle.report.specs.AsCoded.Parts.{inputs_in, Lie};
ghost use Rattle.listing.specs.Listing.{place_name, refused_text, stop_text, frame_line, last_of, printed, listing};
ghost use Rattle.listing.specs.AsCoded.Turns.{turn_text};

use codes::RowTable;
use machine::Regs;
use report::{Parts, read_report};
use text::{put_addresses, put_byte, put_count, put_decimal, put_hex8, put_text, put_word};
use walking::{Frame, Going, Standing, Stop};
use words::{Place, Refusal};

// The largest listing (RULES 8.7).
pub const LISTING_BYTES: usize = 8192;

// The name of a place, and a byte after it.
pub fn put_place(out: &mut [u8], at: usize, place: Place, after: u8) -> usize
    ensures { Laid out.old at (text (place_name place) ++ (after ∷ [])) result out.new }
{
    match place {
        Place::Leaf => put_word(out, at, b"leaf", after),
        Place::Prologue => put_word(out, at, b"prologue", after),
        Place::Body => put_word(out, at, b"body", after),
        Place::Epilogue => put_word(out, at, b"epilogue", after),
    }
}

// `refused R`.
pub fn put_refused(out: &mut [u8], at: usize, refusal: Refusal) -> usize
    ensures { Laid out.old at (refused_text refusal) result out.new }
{
    let number = words::number(refusal);
    put_count(out, at, b"refused ", number as u64)
}

// `refused R at PC`.
fn put_refused_at(out: &mut [u8], at: usize, refusal: Refusal, pc: u32) -> usize
    ensures { Laid out.old at (stop_text (Stop.Refused refusal pc)) result out.new }
{
    let next = put_refused(out, at, refusal);
    let next = put_text(out, next, b" at ");
    put_hex8(out, next, pc)
}

// Why the walk stopped.
fn put_stop(out: &mut [u8], at: usize, stop: Stop) -> usize
    ensures { Laid out.old at (stop_text stop) result out.new }
{
    match stop {
        Stop::End => put_text(out, at, b"end"),
        Stop::Full => put_text(out, at, b"full"),
        Stop::Refused(refusal, pc) => put_refused_at(out, at, refusal, pc),
    }
}

// The line of the frame with this number.
fn put_frame(out: &mut [u8], at: usize, number: usize, frame: Frame) -> usize
    ensures { Laid out.old at (frame_line number frame) result out.new }
{
    let place = frame.place;
    let next = put_decimal(out, at, number as u64);
    let next = put_addresses(out, next, frame.pc, frame.sp);
    put_place(out, next, place, b'\n')
}

// The last line.
fn put_last(out: &mut [u8], at: usize, stop: Stop, frames: usize, codes: usize) -> usize
    ensures { Laid out.old at (last_of stop frames codes) result out.new }
{
    let next = put_stop(out, at, stop);
    let next = put_count(out, next, b" frames ", frames as u64);
    let next = put_count(out, next, b" codes ", codes as u64);
    put_byte(out, next, b'\n')
}

// What a turn of the walk prints: the frame's line, or the last one.
pub fn put_turn(out: &mut [u8], at: usize, s: Standing, x: Result<Going, Stop>) -> usize
    ensures { Laid out.old at (turn_text s x) result out.new }
{
    match x {
        Ok(going) => put_frame(out, at, s.frames, going.frame),
        Err(stop) => put_last(out, at, stop, s.frames, s.codes),
    }
}

// The walk, each frame's line as it is found: no list of frames is needed.
fn put_walk(
    out: &mut [u8],
    image: u32,
    pdata: &[u8],
    rva: u32,
    xdata: &[u8],
    base: u32,
    stack: &[u8],
    g: Regs,
) -> usize
    ensures { Laid out.old 0 (printed (walk (inputs image pdata.now rva xdata.now base stack.now) 256 g)) result out.new }
{
    let rows = RowTable::new();
    let c = frame::check(pdata, rva, xdata, base, stack);
    let mut r = g.r;
    let mut d = g.d;
    let mut s = walking::stand(g, false, 0, 0);
    let mut next = put_text(out, 0, b"frame pc sp place\n");
    loop {
        let x = walking::turn_in(
            &rows, c, image, pdata, rva, xdata, base, stack, &mut r, &mut d, s, 256,
        );
        next = put_turn(out, next, s, x);
        match x {
            Ok(going) => s = going.next,
            Err(_) => return next,
        }
    }
}

// The walk over a report's parts.
fn list_parts(file: &[u8], p: Parts, out: &mut [u8]) -> usize
    requires { Lie file.now p }
    ensures { Laid out.old 0 (printed (walk (inputs_in file.now p) 256 p.regs)) result out.new }
{
    let pdata = p.pdata;
    let xdata = p.xdata;
    let stack = p.stack;
    let end = p.end;
    let regs = p.regs;
    put_walk(
        out,
        p.image,
        &file[pdata..xdata],
        p.rva,
        &file[xdata..stack],
        p.base,
        &file[stack..end],
        regs,
    )
}

// `refused R` alone on its line.
pub fn put_refusal(out: &mut [u8], refusal: Refusal) -> usize
    ensures { Laid out.old 0 (refused_text refusal ++ text "\n") result out.new }
{
    let next = put_refused(out, 0, refusal);
    put_byte(out, next, b'\n')
}

// The listing of a report, of which no more than LISTING_BYTES are ever needed.
pub fn list_report(file: &[u8], out: &mut [u8]) -> usize
    ensures value { (result ≡ length (listing file.now)) × (out.new ≡ overlay out.old 0 (listing file.now)) }
    ensures upper_bound { result ≤ 8192 }
{
    match read_report(file) {
        Ok(p) => list_parts(file, p, out),
        Err(refusal) => put_refusal(out, refusal),
    }
}
