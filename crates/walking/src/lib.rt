// The walk (RULES 7): frame after frame into a list that was lent. It knows no files.
#![tactic(auto)]

ghost use Rattle.std.specs.Prelude.{◌≡◌, ◌+◌, ◌*◌, ◌<◌, ◌≤◌, length, set};
ghost use Rattle.frame.specs.Frame.{inputs, checked as checked_of};
ghost use Rattle.walking.specs.Walk.{next_frame as spec_next_frame, walk as walk_of, Walks, walked_all};
ghost use Rattle.machine.specs.AsCoded.Answers.{regs};
ghost use Rattle.frame.specs.AsCoded.InPlace.{came_to};
ghost use Rattle.walking.specs.AsCoded.Turn.{begun, turn_of, Small};
ghost use Rattle.walking.specs.AsCoded.InPlace.{stands, gone_in, halted_at as spec_halted_at, SmallIn, Goes};

use codes::RowTable;
use frame::Came;
use machine::Regs;
use pdata::Checked;
use words::{Place, Refusal};

// What is listed of a frame (RULES 7.2); bit 0 of its pc is 0.
#[derive(Clone, Copy)]
pub struct Frame {
    pub pc: u32,
    pub sp: u32,
    pub place: Place,
}

// Why a walk stopped: a caller's pc was 0, the list was full, or the frame at this pc was refused (RULES 7.3 to 7.5).
#[derive(Clone, Copy)]
pub enum Stop {
    End,
    Full,
    Refused(Refusal, u32),
}

// A walk's answer: the stop, how many frames are listed, and how many codes they ran (RULES 7.7).
#[derive(Clone, Copy)]
pub struct Walked {
    pub stop: Stop,
    pub frames: usize,
    pub codes: usize,
}

// The answer with the list, for a list that goes in and comes back by value.
#[derive(Clone, Copy)]
pub struct WalkedAll {
    pub walked: Walked,
    pub list: [Frame; 256],
}

// Where a walk stands beside r0-r12 and d0-d31, which are lent: SP, LR and the pc, whether the pc 0 ends it, the frames listed and the sum
// of their codes.
#[derive(Clone, Copy)]
pub struct Standing {
    pub sp: u32,
    pub lr: u32,
    pub pc: u32,
    pub end: bool,
    pub frames: usize,
    pub codes: usize,
}

// What a turn in place that goes on comes to: the frame to list, and where the walk stands then.
#[derive(Clone, Copy)]
pub struct Going {
    pub frame: Frame,
    pub next: Standing,
}

// The same with the registers, for a list of frames that is lent, and with what the tables showed.
#[derive(Clone, Copy)]
struct State {
    checked: Checked,
    regs: Regs,
    end: bool,
    frames: usize,
    codes: usize,
}

#[derive(Clone, Copy)]
struct Turn {
    frame: Frame,
    next: State,
}

// Where a walk stands with these registers.
pub fn stand(g: Regs, end: bool, frames: usize, codes: usize) -> Standing
    ensures { result ≡ record { sp = g.sp; lr = g.lr; pc = g.pc; end = end; frames = frames; codes = codes } }
{
    Standing {
        sp: g.sp,
        lr: g.lr,
        pc: g.pc,
        end,
        frames,
        codes,
    }
}

// The frame at which a turn stops the walk (RULES 7.5): its pc with bit 0 cleared, its SP, and place leaf, since it was not unwound.
pub fn halted_at(s: Standing) -> Frame
    ensures { result ≡ spec_halted_at s }
{
    Frame {
        pc: words::even(s.pc),
        sp: s.sp,
        place: Place::Leaf,
    }
}

// One frame of a walk in place: 13 where a later one does not change SP (RULES 7.6).
fn next_frame(
    t: &RowTable,
    first: bool,
    c: Checked,
    image: u32,
    pdata: &[u8],
    rva: u32,
    xdata: &[u8],
    base: u32,
    stack: &[u8],
    r: &mut [u32; 13],
    d: &mut [u64; 32],
    sp: u32,
    lr: u32,
    pc: u32,
) -> Result<Came, Refusal>
    requires { c ≡ checked_of (inputs image pdata.now rva xdata.now base stack.now) }
    ensures { came_to result r.new d.new ≡ spec_next_frame first (inputs image pdata.now rva xdata.now base stack.now) (regs r.old sp lr pc d.old) }
{
    let u = frame::frame_in(
        t, first, c, image, pdata, rva, xdata, base, stack, r, d, sp, lr, pc,
    )?;
    if !first && u.sp == sp {
        return Err(Refusal::SpSame);
    }
    Ok(u)
}

// A turn that lists the frame and goes on to its caller. The sums fit: SP rises with each frame after the first, and is below 2^32.
fn advance(s: Standing, u: Came) -> Going
    requires { (s.frames ≤ s.sp + 1) × (s.codes ≤ 1020 * s.frames) × (u.codes ≤ 1020) }
    ensures { result ≡ gone_in s u }
{
    let place = u.place;
    let pc = words::even(u.lr);
    Going {
        frame: Frame {
            pc: words::even(s.pc),
            sp: s.sp,
            place,
        },
        next: Standing {
            sp: u.sp,
            lr: u.lr,
            pc,
            end: pc == 0,
            frames: s.frames + 1,
            codes: s.codes + u.codes,
        },
    }
}

// One turn in place, in a list with room for so many records: how it goes on, or why the walk stops, and then the lent registers do not
// count.
pub fn turn_in(
    t: &RowTable,
    c: Checked,
    image: u32,
    pdata: &[u8],
    rva: u32,
    xdata: &[u8],
    base: u32,
    stack: &[u8],
    r: &mut [u32; 13],
    d: &mut [u64; 32],
    s: Standing,
    room: usize,
) -> Result<Going, Stop>
    requires { (c ≡ checked_of (inputs image pdata.now rva xdata.now base stack.now)) × SmallIn (stands s r.old d.old) }
    ensures { Goes (inputs image pdata.now rva xdata.now base stack.now) room (stands s r.old d.old) result r.new d.new }
{
    if s.end {
        return Err(Stop::End);
    }
    let at = s.frames;
    if room <= at {
        return Err(Stop::Full);
    }
    let came = next_frame(
        t,
        at == 0,
        c,
        image,
        pdata,
        rva,
        xdata,
        base,
        stack,
        r,
        d,
        s.sp,
        s.lr,
        s.pc,
    );
    match came {
        Err(why) => Err(Stop::Refused(why, words::even(s.pc))),
        Ok(u) => Ok(advance(s, u)),
    }
}

// Before the first frame: the tables are checked here, once.
fn begin(pdata: &[u8], rva: u32, xdata: &[u8], base: u32, stack: &[u8], g: Regs) -> State
    ensures { result ≡ begun (inputs 0 pdata.now rva xdata.now base stack.now) g }
{
    let checked = frame::check(pdata, rva, xdata, base, stack);
    State {
        checked,
        regs: g,
        end: false,
        frames: 0,
        codes: 0,
    }
}

// The turn in place, with the registers by value.
fn step(
    image: u32,
    pdata: &[u8],
    rva: u32,
    xdata: &[u8],
    base: u32,
    stack: &[u8],
    s: State,
    room: usize,
) -> Result<Turn, Stop>
    requires { (s.checked ≡ checked_of (inputs image pdata.now rva xdata.now base stack.now)) × Small s }
    ensures { result ≡ turn_of (inputs image pdata.now rva xdata.now base stack.now) room s }
{
    let rows = RowTable::new();
    let checked = s.checked;
    let g = s.regs;
    let mut r = g.r;
    let mut d = g.d;
    let x = turn_in(
        &rows,
        checked,
        image,
        pdata,
        rva,
        xdata,
        base,
        stack,
        &mut r,
        &mut d,
        stand(g, s.end, s.frames, s.codes),
        room,
    )?;
    let n = x.next;
    Ok(Turn {
        frame: x.frame,
        next: State {
            checked,
            regs: Regs {
                r,
                sp: n.sp,
                lr: n.lr,
                pc: n.pc,
                d,
            },
            end: n.end,
            frames: n.frames,
            codes: n.codes,
        },
    })
}

// Fills one record of the list; the others stay (RULES 7.2).
fn put(list: &mut [Frame], at: usize, f: Frame)
    requires { at < length list.old }
    ensures { list.new ≡ set list.old at f }
{
    list[at] = f;
}

// The walk from these registers: each frame that is unwound fills a record of the lent list, and the others stay.
pub fn walk(
    image: u32,
    pdata: &[u8],
    rva: u32,
    xdata: &[u8],
    base: u32,
    stack: &[u8],
    g: Regs,
    list: &mut [Frame],
) -> Walked
    ensures { Walks (inputs image pdata.now rva xdata.now base stack.now) g list.old list.new result }
{
    let mut s = begin(pdata, rva, xdata, base, stack, g);
    loop {
        match step(image, pdata, rva, xdata, base, stack, s, list.len()) {
            Err(stop) => {
                return Walked {
                    stop,
                    frames: s.frames,
                    codes: s.codes,
                };
            }
            Ok(t) => {
                put(list, s.frames, t.frame);
                s = t.next;
            }
        }
    }
}

// The walk over a list that goes in and comes back by value, for programs.
pub fn walk_all(
    image: u32,
    pdata: &[u8],
    rva: u32,
    xdata: &[u8],
    base: u32,
    stack: &[u8],
    g: Regs,
    list: [Frame; 256],
) -> WalkedAll
    ensures { result ≡ walked_all list (walk_of (inputs image pdata.now rva xdata.now base stack.now) 256 g) }
{
    let mut frames = list;
    let walked = walk(image, pdata, rva, xdata, base, stack, g, &mut frames);
    WalkedAll {
        walked,
        list: frames,
    }
}
