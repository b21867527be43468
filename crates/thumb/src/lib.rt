// Thumb instructions that unwind codes stand for (RULES 13.1 to 13.3): what one does, by the encodings of the ARM Architecture Reference
// Manual, whose names stand at the rows. It knows no codes, and neither registers' values nor memory.
#![tactic(auto)]

ghost use Rattle.std.specs.Prelude.{◌≡◌, ◌+◌, ◌-◌, ◌^◌, ◌≤◌, ◌<◌, eqb, length, None, Some, if◌then◌else◌};
ghost use Rattle.std.specs.Int.Bits.{bit_and};
ghost use Rattle.lent.specs.Little.{word16};
ghost use Rattle.thumb.specs.Immediate as I;
ghost use Rattle.thumb.specs.Rows as R;
ghost use Rattle.thumb.specs.Instruction.{no_instruction, instruction_at};

use words::{Halfwords, bit, bits};

// What an instruction does. Registers go by number, 13 for SP, 14 for LR, 15 for PC; a list of them has 16 bits; amounts are bytes, of any
// number of words.
#[derive(Clone, Copy, PartialEq, Eq)]
pub enum Action {
    Push(u32),
    Pop(u32),
    // dS to dE are pushed, or popped
    Vpush(u32, u32),
    Vpop(u32, u32),
    // SP falls, or rises
    SubSp(u64),
    AddSp(u64),
    // the first register takes the second one's value
    Mov(u32, u32),
    // SP falls by an amount, and the register is stored where it then is
    Store(u32, u64),
    // the register takes the word at SP, and SP rises by an amount
    Load(u32, u64),
    // a branch to the address in a register; a branch
    Bx(u32),
    Branch,
    // anything else
    Other,
}

// What an instruction does, and its size.
#[derive(Clone, Copy)]
pub struct Instruction {
    pub action: Action,
    pub size: Halfwords,
}

// How many registers a list names.
fn count(list: u32) -> u32
    ensures { result ≡ R.count list 16 }
{
    let mut n = 0;
    for i in 0..16 {
        n += bits(list, i, 1);
    }
    n
}

// A push of a list of so many registers at least.
fn pushing(least: u32, list: u32) -> Action
    ensures { result ≡ R.pushing least list }
{
    if least <= count(list) {
        Action::Push(list)
    } else {
        Action::Other
    }
}

// A pop of such a list, which has not both LR and PC.
fn popping(least: u32, list: u32) -> Action
    ensures { result ≡ R.popping least list }
{
    if least <= count(list) && !(bit(list, 14) && bit(list, 15)) {
        Action::Pop(list)
    } else {
        Action::Other
    }
}

// The field i:imm3:imm8.
fn imm12(w: u32) -> u32
    ensures { (result ≡ I.imm12 w) × (result < 4096) }
{
    bits(w, 0, 8) + 256 * bits(w, 12, 3) + 2048 * bits(w, 26, 1)
}

// What the byte of a repeated constant is multiplied by.
fn repeats(i: u32) -> u32
    ensures { (result ≡ I.repeats i) × (result < 16843010) }
{
    match bits(i, 8, 2) {
        0 => 1,
        1 => 0x00010001,
        2 => 0x01000100,
        _ => 0x01010101,
    }
}

// Whether bits 10 and 11 tell of a repeated constant.
fn repeated(i: u32) -> bool
    ensures { result ≡ I.repeated i }
{
    bits(i, 10, 2) == 0
}

// A modified constant.
fn expanded(i: u32) -> u32
    requires { i < 4096 }
    ensures { result ≡ I.expanded i }
{
    if repeated(i) {
        return bits(i, 0, 8) * repeats(i);
    }
    (128 + bits(i, 0, 7)) * (1 << (32 - bits(i, 7, 5)))
}

// Whether it repeats a byte of zeros.
fn unpredictable(i: u32) -> bool
    ensures { result ≡ I.unpredictable i }
{
    repeated(i) && bits(i, 8, 2) != 0 && bits(i, 0, 8) == 0
}

// Rt.
fn rt(w: u32) -> u32
    ensures { (result ≡ R.rt w) × (result < 16) }
{
    bits(w, 12, 4)
}

// PUSH T3: SP and PC are unpredictable.
fn push_one(w: u32) -> Action
    ensures { result ≡ R.push_t3 w }
{
    let t = rt(w);
    if t == 13 || t == 15 {
        return Action::Other;
    }
    Action::Push(1 << t)
}

// POP T3: SP is unpredictable.
fn pop_one(w: u32) -> Action
    ensures { result ≡ R.pop_t3 w }
{
    let t = rt(w);
    if t == 13 {
        return Action::Other;
    }
    Action::Pop(1 << t)
}

// The amount that a modified constant is, unless it is unpredictable.
fn modified(w: u32) -> Option<u64>
    ensures { result ≡ (if I.unpredictable (I.imm12 w) then None else Some (I.expanded (I.imm12 w))) }
{
    let i = imm12(w);
    if unpredictable(i) {
        return None;
    }
    Some(expanded(i) as u64)
}

// SUB (SP minus immediate) T2.
fn sub_modified(w: u32) -> Action
    ensures { result ≡ R.sub_t2 w }
{
    match modified(w) {
        Some(n) => Action::SubSp(n),
        None => Action::Other,
    }
}

// ADD (SP plus immediate) T3.
fn add_modified(w: u32) -> Action
    ensures { result ≡ R.add_t3 w }
{
    match modified(w) {
        Some(n) => Action::AddSp(n),
        None => Action::Other,
    }
}

// D:Vd, the first of the d registers.
fn first_d(w: u32) -> u32
    ensures { (result ≡ R.first_d w) × (result < 32) }
{
    bits(w, 12, 4) + 16 * bits(w, 22, 1)
}

// Whether there are n d registers from number s up, 1 to 16.
fn some_d(s: u32, n: u32) -> bool
    requires { (s < 32) × (n < 128) }
    ensures { result ≡ R.some_d s n }
{
    1 <= n && n <= 16 && s + n <= 32
}

// The first and the last of the d registers, if there are any such.
fn d_range(w: u32) -> Option<(u32, u32)>
    ensures { result ≡ (if R.some_d (R.first_d w) (R.count_d w) then Some (R.first_d w, R.first_d w + R.count_d w - 1) else None) }
{
    let s = first_d(w);
    let n = bits(w, 1, 7);
    if some_d(s, n) {
        return Some((s, s + n - 1));
    }
    None
}

// VPUSH T1.
fn vpush(w: u32) -> Action
    ensures { result ≡ R.vpush_t1 w }
{
    match d_range(w) {
        Some((s, e)) => Action::Vpush(s, e),
        None => Action::Other,
    }
}

// VPOP T1.
fn vpop(w: u32) -> Action
    ensures { result ≡ R.vpop_t1 w }
{
    match d_range(w) {
        Some((s, e)) => Action::Vpop(s, e),
        None => Action::Other,
    }
}

// STR (immediate) T4: SP and PC are unpredictable.
fn store(w: u32) -> Action
    ensures { result ≡ R.str_t4 w }
{
    let t = rt(w);
    if t == 13 || t == 15 {
        return Action::Other;
    }
    Action::Store(t, bits(w, 0, 8) as u64)
}

// LDR (immediate) T4: SP is unpredictable.
fn load(w: u32) -> Action
    ensures { result ≡ R.ldr_t4 w }
{
    let t = rt(w);
    if t == 13 {
        return Action::Other;
    }
    Action::Load(t, bits(w, 0, 8) as u64)
}

// Whether a number has the bits of a value where the mask has ones.
fn has(w: u32, mask: u32, value: u32) -> bool
    ensures { result ≡ eqb (bit_and w mask) value }
{
    w & mask == value
}

// The instructions of 16 bits.
pub fn narrow(h: u32) -> Action
    ensures { result ≡ R.action_in R.rows16 h }
{
    // PUSH T1
    if has(h, 0xFE00, 0xB400) {
        return pushing(1, bits(h, 0, 8) + 16384 * bits(h, 8, 1));
    }
    // POP T1
    if has(h, 0xFE00, 0xBC00) {
        return popping(1, bits(h, 0, 8) + 32768 * bits(h, 8, 1));
    }
    // SUB (SP minus immediate) T1
    if has(h, 0xFF80, 0xB080) {
        return Action::SubSp(4 * bits(h, 0, 7) as u64);
    }
    // ADD (SP plus immediate) T2
    if has(h, 0xFF80, 0xB000) {
        return Action::AddSp(4 * bits(h, 0, 7) as u64);
    }
    // MOV (register) T1
    if has(h, 0xFF00, 0x4600) {
        return Action::Mov(bits(h, 0, 3) + 8 * bits(h, 7, 1), bits(h, 3, 4));
    }
    // BX T1
    if has(h, 0xFF87, 0x4700) {
        return Action::Bx(bits(h, 3, 4));
    }
    Action::Other
}

// Those of 32 bits but for pushes, pops and amounts.
fn wide_more(w: u32) -> Action
    ensures { result ≡ R.action_in R.rows_more w }
{
    // VPUSH T1
    if has(w, 0xFFBF0F01, 0xED2D0B00) {
        return vpush(w);
    }
    // VPOP T1
    if has(w, 0xFFBF0F01, 0xECBD0B00) {
        return vpop(w);
    }
    // STR (immediate) T4: less a constant, or plus 0
    if has(w, 0xFFFF0F00, 0xF84D0D00) {
        return store(w);
    }
    if has(w, 0xFFFF0FFF, 0xF84D0F00) {
        return store(w);
    }
    // LDR (immediate) T4: plus a constant, or less 0
    if has(w, 0xFFFF0F00, 0xF85D0B00) {
        return load(w);
    }
    if has(w, 0xFFFF0FFF, 0xF85D0900) {
        return load(w);
    }
    // B T4
    if has(w, 0xF800D000, 0xF0009000) {
        return Action::Branch;
    }
    Action::Other
}

// The instructions of 32 bits, as one number, the first halfword highest.
pub fn wide(w: u32) -> Action
    ensures { result ≡ R.action_in R.rows32 w }
{
    // PUSH T2
    if has(w, 0xFFFFA000, 0xE92D0000) {
        return pushing(2, bits(w, 0, 16));
    }
    // PUSH T3
    if has(w, 0xFFFF0FFF, 0xF84D0D04) {
        return push_one(w);
    }
    // POP T2
    if has(w, 0xFFFF2000, 0xE8BD0000) {
        return popping(2, bits(w, 0, 16));
    }
    // POP T3
    if has(w, 0xFFFF0FFF, 0xF85D0B04) {
        return pop_one(w);
    }
    // SUB (SP minus immediate) T2, T3
    if has(w, 0xFBFF8F00, 0xF1AD0D00) {
        return sub_modified(w);
    }
    if has(w, 0xFBFF8F00, 0xF2AD0D00) {
        return Action::SubSp(imm12(w) as u64);
    }
    // ADD (SP plus immediate) T3, T4
    if has(w, 0xFBFF8F00, 0xF10D0D00) {
        return add_modified(w);
    }
    if has(w, 0xFBFF8F00, 0xF20D0D00) {
        return Action::AddSp(imm12(w) as u64);
    }
    wide_more(w)
}

// A byte as a word, with its range.
fn of_byte(b: u8) -> u32
    ensures { (result ≡ b) × (result < 256) }
{
    b as u32
}

// The halfword at an offset, whose bytes the caller has tested.
fn halfword(code: &[u8], at: usize) -> u32
    requires { at + 2 ≤ length code.now }
    ensures { (result ≡ word16 code.now at) × (result < 65536) }
{
    of_byte(code[at]) + 256 * of_byte(code[at + 1])
}

// Where not all halfwords of an instruction are there.
fn none() -> Instruction
    ensures { result ≡ no_instruction }
{
    Instruction {
        action: Action::Other,
        size: Halfwords(0),
    }
}

// The instruction at an offset of a function's bytes.
pub fn read_at(code: &[u8], at: usize) -> Instruction
    ensures { result ≡ instruction_at code.now at }
{
    let n = code.len();
    if n <= at || n - at < 2 {
        return none();
    }
    let h = halfword(code, at);
    if h < 0xE800 {
        return Instruction {
            action: narrow(h),
            size: Halfwords(1),
        };
    }
    if n - at < 4 {
        return none();
    }
    let k = halfword(code, at + 2);
    Instruction {
        action: wide(65536 * h + k),
        size: Halfwords(2),
    }
}
