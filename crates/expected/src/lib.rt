// Which instruction a code stands for, in a prologue and in an epilogue, and whether an instruction is that one (RULES 13.5 to 13.8). It knows
// neither lists of codes nor records.
#![tactic(auto)]

ghost use Rattle.std.specs.Prelude.{◌≡◌, ◌^◌, ◌<◌};
ghost use Rattle.words.specs.Units.{halfword_bytes};
ghost use Rattle.expected.specs.Expected as E;

use codes::{Code, Undo};
use thumb::{Action, Instruction};
use words::{Halfwords, bit, stack_bytes};

// What the instruction must do.
#[derive(Clone, Copy)]
pub enum Acts {
    // whatever it does: a nop's
    Any,
    // this and nothing else
    This(Action),
    // this, or push {r0-r3}: that of 04 in a prologue
    OrHome(Action),
}

// The instruction that is expected: what it must do, and its size.
#[derive(Clone, Copy)]
pub struct Expected {
    pub acts: Acts,
    pub size: Halfwords,
}

// A store of LR below SP: of one word it is a push.
fn storing(bytes: u64) -> Action
    ensures { result ≡ E.storing bytes }
{
    if bytes == 4 {
        Action::Push(16384)
    } else {
        Action::Store(14, bytes)
    }
}

// A load of LR, or of PC, at SP: of one word it is a pop.
fn loading(pc: bool, bytes: u64) -> Action
    ensures { result ≡ E.loading (E.or_pc pc) bytes }
{
    if bytes == 4 {
        if pc {
            return Action::Pop(32768);
        }
        return Action::Pop(16384);
    }
    if pc {
        return Action::Load(15, bytes);
    }
    Action::Load(14, bytes)
}

// An amount: that of the byte 04 may also home r0-r3.
fn lowering(first: u8, a: Action) -> Acts
    ensures { result ≡ E.lowering first a }
{
    if first == 4 {
        Acts::OrHome(a)
    } else {
        Acts::This(a)
    }
}

// What the instruction of a code with this first byte does in a prologue.
fn acts_before(first: u8, u: Undo) -> Acts
    ensures { result ≡ E.acts_before first u }
{
    match u {
        Undo::Up(n) => lowering(first, Action::SubSp(stack_bytes(n))),
        Undo::Pop(l) => Acts::This(Action::Push(l)),
        Undo::SpFrom(x) => Acts::This(Action::Mov(x, 13)),
        Undo::Vpop(s, e) => Acts::This(Action::Vpush(s, e)),
        Undo::LoadLr(n) => Acts::This(storing(stack_bytes(n))),
        Undo::Nothing => Acts::Any,
    }
}

// A list with PC in LR's place.
fn with_pc(list: u32) -> u32
    requires { list < 2 ^ 15 }
    ensures { result ≡ E.with_pc list }
{
    if bit(list, 14) { list + 16384 } else { list }
}

// The same where LR stands for PC.
fn list_or_pc(last: bool, list: u32) -> u32
    requires { list < 2 ^ 15 }
    ensures { result ≡ E.list_or_pc last list }
{
    if last { with_pc(list) } else { list }
}

// What the instruction of a code does in an epilogue, the last before FF or not.
fn acts_after(last: bool, u: Undo) -> Acts
    requires { E.Listed u }
    ensures { result ≡ E.acts_after last u }
{
    match u {
        Undo::Up(n) => Acts::This(Action::AddSp(stack_bytes(n))),
        Undo::Pop(l) => Acts::This(Action::Pop(list_or_pc(last, l))),
        Undo::SpFrom(x) => Acts::This(Action::Mov(13, x)),
        Undo::Vpop(s, e) => Acts::This(Action::Vpop(s, e)),
        Undo::LoadLr(n) => Acts::This(loading(last, stack_bytes(n))),
        Undo::Nothing => Acts::Any,
    }
}

// The instruction of a code in a prologue, by the code's first byte too.
pub fn in_prologue(first: u8, c: Code) -> Expected
    ensures { result ≡ E.before first c }
{
    let undo = c.undo;
    let size = c.size;
    let acts = acts_before(first, undo);
    Expected { acts, size }
}

// The instruction of a code in an epilogue.
pub fn in_epilogue(last: bool, c: Code) -> Expected
    requires { E.Listed c.undo }
    ensures { result ≡ E.after last c }
{
    let undo = c.undo;
    let size = c.size;
    let acts = acts_after(last, undo);
    Expected { acts, size }
}

// The instruction of an end code, by its size: that of FD, or that of FE.
pub fn at_end(size: Halfwords) -> Expected
    ensures { result ≡ E.ending (halfword_bytes size) }
{
    if size.0 == 1 {
        Expected {
            acts: Acts::This(Action::Bx(14)),
            size: Halfwords(1),
        }
    } else {
        Expected {
            acts: Acts::This(Action::Branch),
            size: Halfwords(2),
        }
    }
}

// Whether what an instruction does is expected.
fn allows(acts: Acts, a: Action) -> bool
    ensures { result ≡ E.allows acts a }
{
    match acts {
        Acts::Any => true,
        Acts::This(b) => a == b,
        Acts::OrHome(b) => a == b || a == Action::Push(15),
    }
}

// Whether an instruction is an expected one.
pub fn meets(e: Expected, i: Instruction) -> bool
    ensures { result ≡ E.meets e i }
{
    let acts = e.acts;
    let action = i.action;
    if e.size.0 != i.size.0 {
        return false;
    }
    allows(acts, action)
}
