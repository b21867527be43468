// Packed words: their fields, the word's writer, the stack adjustment and the registers that they stand for. It knows neither registers'
// values nor the stack.
#![tactic(auto)]

ghost use Rattle.std.specs.Prelude.{◌≡◌, ◌+◌, ◌-◌, ◌*◌, ◌%◌, ◌^◌, ◌<◌, ◌≤◌, eqb, if◌then◌else◌};
ghost use Rattle.codes.specs.Table.{range as range_of, lr_if as spec_lr_if};
ghost use Rattle.packed.specs.Packed.{Fit, fields as fields_of, fields_fit as spec_fields_fit, allowed as allowed_of, word_of, write_word as spec_write_word, word_given as spec_word_given, folded as folded_of, amount as amount_of, PF, EF, integers as integers_of};

use codes::list::{from_r4, lr_if, range};
use words::{Halfwords, Refusal, StackWords, bit, bits};

// The fields of a packed word: Flag, length / 2, Ret, H, Reg, R, L, C, Stack Adjust (RULES 4.1).
// `Fit` is no invariant: a C caller's fields may be too large, which `write_word` refuses.
#[derive(Clone, Copy)]
pub struct Packed {
    pub flag: u32,
    pub length: Halfwords,
    pub ret: u32,
    pub h: u32,
    pub reg: u32,
    pub r: u32,
    pub l: u32,
    pub c: u32,
    pub adjust: u32,
}

// The fields of a packed word.
pub fn fields(word: u32) -> Packed
    ensures { result ≡ fields_of word }
{
    Packed {
        flag: bits(word, 0, 2),
        length: Halfwords(bits(word, 2, 11)),
        ret: bits(word, 13, 2),
        h: bits(word, 15, 1),
        reg: bits(word, 16, 3),
        r: bits(word, 19, 1),
        l: bits(word, 20, 1),
        c: bits(word, 21, 1),
        adjust: bits(word, 22, 10),
    }
}

// Whether each field fits its bits (RULES 9.55).
fn fields_fit(p: Packed) -> bool
    ensures { result ≡ spec_fields_fit p }
{
    let length = p.length;
    p.flag < 4
        && length.0 < 2048
        && p.ret < 4
        && p.h < 2
        && p.reg < 8
        && p.r < 2
        && p.l < 2
        && p.c < 2
        && p.adjust < 1024
}

// Whether a packed word may have these fields: Flag 1 or 2 (RULES 9.55), and nothing that RULES 4.5 rules out.
pub fn allowed(p: Packed) -> bool
    ensures { result ≡ allowed_of p }
{
    (p.flag == 1 || p.flag == 2)
        && !(p.ret == 0 && p.l == 0)
        && !(p.c == 1 && p.l == 0)
        && !(p.c == 1 && p.r == 0 && p.reg == 7)
}

// The word that holds these fields.
fn word_of(p: Packed) -> u32
    requires { Fit p }
    ensures { result ≡ word_of p }
{
    let length = p.length;
    p.flag
        + 4 * length.0
        + 8192 * p.ret
        + 32768 * p.h
        + 65536 * p.reg
        + 524288 * p.r
        + 1048576 * p.l
        + 2097152 * p.c
        + 4194304 * p.adjust
}

// The packed word of these fields.
pub fn write_word(p: Packed) -> Result<u32, Refusal>
    ensures { result ≡ spec_write_word p }
{
    if fields_fit(p) && allowed(p) {
        return Ok(word_of(p));
    }
    Err(Refusal::Reserved)
}

// What a written word counts as where a number is owed: 0 if it is refused (RULES 4.18).
pub fn word_given(word: Result<u32, Refusal>) -> u32
    ensures { result ≡ spec_word_given word }
{
    word.unwrap_or(0)
}

// Whether Stack Adjust holds PF and EF beside the amount.
fn folded(p: Packed) -> bool
    ensures { result ≡ folded_of p }
{
    0x3F4 <= p.adjust
}

// The stack adjustment.
pub fn amount(p: Packed) -> StackWords
    ensures { result ≡ amount_of p }
{
    if folded(p) {
        StackWords(bits(p.adjust, 0, 2) + 1)
    } else {
        StackWords(p.adjust)
    }
}

// PF: the adjustment is folded into the prologue's push.
pub fn pf(p: Packed) -> bool
    ensures { result ≡ PF p }
{
    folded(p) && bit(p.adjust, 2)
}

// EF: it is folded into the epilogue's pop.
pub fn ef(p: Packed) -> bool
    ensures { result ≡ EF p }
{
    folded(p) && bit(p.adjust, 3)
}

// r4 to rN, which Reg names, if R=0 (RULES 4.3).
fn saved(p: Packed) -> u32
    requires { Fit p }
    ensures { (result ≡ (if eqb p.r 0 then range_of 4 (4 + p.reg) else 0)) × (result < 4096) }
{
    if p.r == 0 {
        return from_r4(4 + p.reg);
    }
    0
}

// rS to r3, which a folded adjustment adds (RULES 4.3).
fn homed(adjust: u32, fold: bool) -> u32
    ensures { (result ≡ (if fold then range_of (3 - adjust % 4) 3 else 0)) × (result < 16) }
{
    if fold {
        return range(3 - adjust % 4, 3);
    }
    0
}

// r11, if C=1 (RULES 4.3).
fn chained(p: Packed) -> u32
    requires { Fit p }
    ensures { (result ≡ p.c * 2 ^ 11) × (result ≤ 2048) }
{
    if p.c == 1 {
        return range(11, 11);
    }
    0
}

// The integer list (RULES 4.3).
fn list(p: Packed, fold: bool) -> u32
    requires { Fit p }
    ensures { result ≡ integers_of p fold + spec_lr_if p.l }
{
    saved(p) + homed(p.adjust, fold) + chained(p) + lr_if(p.l == 1)
}

// The integer list of a packed word, LR in it if L=1, and rS-r3 if the adjustment is folded.
pub fn registers(word: u32, fold: bool) -> u32
    ensures { result ≡ integers_of (fields_of word) fold + spec_lr_if (fields_of word).l }
{
    list(fields(word), fold)
}
