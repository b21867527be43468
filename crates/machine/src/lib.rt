// The machine that codes act on: registers and the lent stack. It knows no tables. No public function asks anything of its caller.
#![tactic(auto)]

ghost use Rattle.std.specs.Prelude.{◌≡◌, List, true, ℕ, ◌+◌, ◌-◌, ◌*◌, ◌<◌, ◌≤◌, eqb, length, get_or, set, if◌then◌else◌, Ok, IfOk};
ghost use Rattle.words.specs.Bits.{bit};
ghost use Rattle.lent.specs.Lent.{lent, holds as holds_of};
ghost use Rattle.codes.specs.Code.{scan};
ghost use Rattle.machine.specs.Step.{stands as stands_of, load as load_of, pop as pop_of, vpop as vpop_of, effect as effect_of, step as step_of};
ghost use Rattle.machine.specs.AsCoded.Answers.{load_two as load_two_of, regs, came};
ghost use Rattle.machine.specs.AsCoded.Listed.{words_listed as spec_words_listed};
ghost use Rattle.machine.specs.AsCoded.Run.{run_at};

use codes::{Code, RowTable, Taken, Undo};
use words::{CodeBytes, Refusal, StackWords};

// The registers of RULES 1.1.
#[derive(Clone, Copy)]
pub struct Regs {
    pub r: [u32; 13],
    pub sp: u32,
    pub lr: u32,
    pub pc: u32,
    pub d: [u64; 32],
}

// Codes are undone in place, since the registers are long: r0-r12 and d0-d31 in lists that are lent, SP and LR by value. After a refusal
// none of them counts.

// What undoing came to before SP is looked at, which may be past 2^32.
#[derive(Clone, Copy)]
struct Undone {
    sp: u64,
    lr: u32,
}

// What a code came to, where SP stands.
#[derive(Clone, Copy)]
struct Stood {
    sp: u32,
    lr: u32,
}

// What the codes from an index on came to, and how many were run.
#[derive(Clone, Copy)]
pub struct Ended {
    pub sp: u32,
    pub lr: u32,
    pub codes: usize,
}

// A register by number, LR as 14.
fn reg(r: &[u32], lr: u32, x: usize) -> u32
    ensures { result ≡ (if eqb x 14 then lr else get_or r.now x 0) }
{
    if x == 14 {
        return lr;
    }
    if x < r.len() {
        return r[x];
    }
    0
}

// A word goes to the register of a number, which gives LR. A number that has no register is passed over.
fn set_reg(r: &mut [u32], lr: u32, x: usize, w: u32) -> u32
    ensures { (result ≡ (if eqb x 14 then w else lr)) × (r.new ≡ set r.old x w) }
{
    if x < r.len() {
        r[x] = w;
    }
    if x == 14 {
        return w;
    }
    lr
}

// Two words, as one, go to a d register.
fn set_d(d: &mut [u64], x: usize, w: u64)
    ensures { d.new ≡ set d.old x w }
{
    if x < d.len() {
        d[x] = w;
    }
}

// SP may stand here (RULES 9.8).
pub fn stands(base: u32, stack: &[u8], sp: u64) -> bool
    ensures { result ≡ stands_of (lent base stack.now) sp }
{
    let low = base as u64;
    let len = stack.len() as u64;
    if sp % 4 != 0 {
        return false;
    }
    if sp < low {
        return false;
    }
    if len < sp - low {
        return false;
    }
    sp < 4294967296
}

// The word at an address, refused unless all of it is lent (RULES 3.10).
pub fn load(base: u32, stack: &[u8], at: u64) -> Result<u32, Refusal>
    ensures { result ≡ load_of (lent base stack.now) at }
{
    if !lent::holds(base, stack, at, 4) {
        return Err(Refusal::BadStack);
    }
    Ok(lent::word32_in(stack, (at - base as u64) as usize))
}

// The two words at an address, the lower first.
fn load_two(base: u32, stack: &[u8], at: u64) -> Result<u64, Refusal>
    ensures { result ≡ load_two_of (lent base stack.now) at }
{
    let low = load(base, stack, at)?;
    let high = load(base, stack, at + 4)?;
    Ok((low as u64) + 4294967296 * (high as u64))
}

// Whether a list has the register of a number.
fn has(list: u32, x: usize) -> bool
    requires { x < 16 }
    ensures { result ≡ bit x list }
{
    (list >> x) % 2 == 1
}

// How many registers a list has: so many words a pop of it takes.
fn words_listed(list: u32) -> u64
    ensures { result ≡ spec_words_listed list 15 }
{
    let mut n = 0;
    for x in 0..15 {
        if has(list, x) {
            n = n + 1;
        }
    }
    n
}

// Whether a list's words are lent from SP on. The registers are counted only near the end of the stack.
fn room(list: u32, sp: u32, base: u32, stack: &[u8]) -> bool
    ensures { result ≡ holds_of (lent base stack.now) sp (4 * spec_words_listed list 15) }
{
    let at = sp as u64;
    lent::holds(base, stack, at, 60) || lent::holds(base, stack, at, 4 * words_listed(list))
}

// Loads the registers of a list from low to high, LR as 14 at last, each from the next word (RULES 3.11). There is no test for each: its
// caller has asked `room`.
fn pop_in(list: u32, r: &mut [u32; 13], sp: u32, lr: u32, base: u32, stack: &[u8]) -> Undone
    requires { holds_of (lent base stack.now) sp (4 * spec_words_listed list 15) ≡ true }
    ensures { (pc : ℕ) (d : List ℕ) → pop_of (lent base stack.now) list 15 (regs r.old sp lr pc d) ≡ Ok (regs r.new result.sp result.lr pc d) }
{
    let mut o = (sp - base) as usize;
    let mut back = lr;
    for x in 0..15 {
        if has(list, x) {
            back = set_reg(r, back, x, lent::word32_in(stack, o));
            o = o + 4;
        }
    }
    Undone {
        sp: (base as u64) + (o as u64),
        lr: back,
    }
}

// Pops a list, or refuses if some word of it is not lent.
fn pop(
    list: u32,
    r: &mut [u32; 13],
    sp: u32,
    lr: u32,
    base: u32,
    stack: &[u8],
) -> Result<Undone, Refusal>
    ensures { (pc : ℕ) (d : List ℕ) → came result (λ u. regs r.new u.sp u.lr pc d) ≡ pop_of (lent base stack.now) list 15 (regs r.old sp lr pc d) }
{
    if room(list, sp, base, stack) {
        return Ok(pop_in(list, r, sp, lr, base, stack));
    }
    if words_listed(list) == 0 {
        return Ok(Undone { sp: sp as u64, lr });
    }
    Err(Refusal::BadStack)
}

// Pops dS to dE by rising number (RULES 3.12).
fn vpop(
    s: u32,
    e: u32,
    d: &mut [u64; 32],
    sp: u32,
    lr: u32,
    base: u32,
    stack: &[u8],
) -> Result<Undone, Refusal>
    ensures { (r : List ℕ) (pc : ℕ) → came result (λ u. regs r u.sp u.lr pc d.new) ≡ vpop_of (lent base stack.now) s (e + 1 - s) (regs r sp lr pc d.old) }
{
    let mut at = sp as u64;
    for x in (s as usize)..(e as usize) + 1 {
        let w = load_two(base, stack, at)?;
        set_d(d, x, w);
        at = at + 8;
    }
    Ok(Undone { sp: at, lr })
}

// LR takes the word at SP, and SP moves by an amount (RULES 3.14).
fn load_lr(
    n: StackWords,
    r: &mut [u32; 13],
    sp: u32,
    lr: u32,
    base: u32,
    stack: &[u8],
) -> Result<Undone, Refusal>
    ensures { (pc : ℕ) (d : List ℕ) → came result (λ u. regs r.new u.sp u.lr pc d) ≡ effect_of (lent base stack.now) (Undo.LoadLr n) (regs r.old sp lr pc d) }
{
    let at = sp as u64;
    let w = load(base, stack, at)?;
    Ok(Undone {
        sp: at + words::stack_bytes(n),
        lr: set_reg(r, lr, 14, w),
    })
}

// What a code undoes, before SP is looked at.
fn effect(
    undo: Undo,
    r: &mut [u32; 13],
    d: &mut [u64; 32],
    sp: u32,
    lr: u32,
    base: u32,
    stack: &[u8],
) -> Result<Undone, Refusal>
    ensures { (pc : ℕ) → came result (λ u. regs r.new u.sp u.lr pc d.new) ≡ effect_of (lent base stack.now) undo (regs r.old sp lr pc d.old) }
{
    match undo {
        Undo::Up(n) => Ok(Undone {
            sp: (sp as u64) + words::stack_bytes(n),
            lr,
        }),
        Undo::Pop(list) => pop(list, r, sp, lr, base, stack),
        Undo::SpFrom(x) => Ok(Undone {
            sp: reg(r, lr, x as usize) as u64,
            lr,
        }),
        Undo::Vpop(s, e) => vpop(s, e, d, sp, lr, base, stack),
        Undo::LoadLr(n) => load_lr(n, r, sp, lr, base, stack),
        Undo::Nothing => Ok(Undone { sp: sp as u64, lr }),
    }
}

// One code in place, after which SP must stand in the stack (RULES 3.9).
fn undo_one(
    code: Code,
    r: &mut [u32; 13],
    d: &mut [u64; 32],
    sp: u32,
    lr: u32,
    base: u32,
    stack: &[u8],
) -> Result<Stood, Refusal>
    ensures { (pc : ℕ) → came result (λ u. regs r.new u.sp u.lr pc d.new) ≡ step_of (lent base stack.now) code (regs r.old sp lr pc d.old) }
{
    let u = effect(code.undo, r, d, sp, lr, base, stack)?;
    let at = u.sp;
    if stands(base, stack, at) {
        return Ok(Stood {
            sp: at as u32,
            lr: u.lr,
        });
    }
    Err(Refusal::BadStack)
}

// Runs the codes from an index on, in place: the one there, and on what it left those behind it (RULES 3.15). `n` were run before, at most
// the index, since each code has a byte, so that the count fits. The answer is lent (`ended`): one that is returned is copied at each
// return, and the call in tail position is no jump then.
fn run_on(
    t: &RowTable,
    codes: &[u8],
    at: CodeBytes,
    n: usize,
    r: &mut [u32; 13],
    d: &mut [u64; 32],
    sp: u32,
    lr: u32,
    base: u32,
    stack: &[u8],
    ended: &mut Result<Ended, Refusal>,
)
    requires { n ≤ at.0 }
    ensures ran { (pc : ℕ) → came ended.new (λ e. regs r.new e.sp e.lr pc d.new) ≡ run_at (lent base stack.now) codes.now at (regs r.old sp lr pc d.old) }
    ensures counted { IfOk ended.new (λ e. e.codes ≡ n + length (scan codes.now at).list) }
{
    match codes::take_at(t, codes, at) {
        Taken::One(code, next) => match undo_one(code, r, d, sp, lr, base, stack) {
            Ok(s) => run_on(t, codes, next, n + 1, r, d, s.sp, s.lr, base, stack, ended),
            Err(why) => *ended = Err(why),
        },
        Taken::Last(_) => *ended = Ok(Ended { sp, lr, codes: n }),
        Taken::Bad(i) => *ended = Err(Refusal::BadCodes(i)),
    }
}

// Runs the codes from an index on, in place, by the table of codes, which its caller has made once for many lists.
pub fn run_in(
    t: &RowTable,
    codes: &[u8],
    at: CodeBytes,
    r: &mut [u32; 13],
    d: &mut [u64; 32],
    sp: u32,
    lr: u32,
    base: u32,
    stack: &[u8],
) -> Result<Ended, Refusal>
    ensures ran { (pc : ℕ) → came result (λ e. regs r.new e.sp e.lr pc d.new) ≡ run_at (lent base stack.now) codes.now at (regs r.old sp lr pc d.old) }
    ensures counted { IfOk result (λ e. e.codes ≡ length (scan codes.now at).list) }
{
    let mut ended = Ok(Ended { sp, lr, codes: 0 });
    run_on(t, codes, at, 0, r, d, sp, lr, base, stack, &mut ended);
    ended
}
