// The unwind codes (RULES 3.2): what each means, how many bytes it has, which size its instruction has. It knows neither registers'
// values nor records.
#![tactic(auto)]

pub mod list;
mod table;

ghost use Rattle.std.specs.Prelude.{◌≡◌, ◌+◌, ◌≤◌, ◌<◌, length, take, drop, get_or, ◌||◌, leb, eqb, if◌then◌else◌, List, ℕ};
ghost use Rattle.words.specs.Units.{code_bytes as spec_code_bytes, stack_words};
ghost use Rattle.codes.specs.Table.{row_of as spec_row_of, lr_if as spec_lr_if};
ghost use Rattle.codes.specs.AsCoded.Rows.{entry_of, row_numbers};
ghost use Rattle.codes.specs.AsCoded.Sizing.{sized, fitting};
ghost use Rattle.codes.specs.Code.{value as value_of, taken as taken_of, take_at as spec_take_at};

use list::{from_r4, lr_if};
use std::marker::Model;
use words::{CodeBytes, Halfwords, StackWords, bit, bits};

// What a code undoes. Lists of registers are those of list.rt. All payloads have one width, and so one place: the compiler then keeps a code
// in registers, which it does not with narrower ones.
#[derive(Clone, Copy)]
pub enum Undo {
    // SP rises by so many words
    Up(StackWords),
    // the registers of the list are popped (RULES 3.11)
    Pop(u32),
    // SP becomes rX
    SpFrom(u32),
    // dS to dE are popped
    Vpop(u32, u32),
    // LR takes the word at SP, and SP rises by so many words (RULES 3.14)
    LoadLr(StackWords),
    // a nop
    Nothing,
}

// What code bytes at a place say.
#[derive(Clone, Copy)]
pub enum Meaning {
    Does(Undo),
    End,
    Undefined,
}

// A code of a list: what it undoes, and its instruction's size.
#[derive(Clone, Copy)]
pub struct Code {
    pub undo: Undo,
    pub size: Halfwords,
}

// What is taken from code bytes: a code, or, for whoever goes over a list without undoing it, its instruction's size alone.
#[derive(Clone, Copy)]
pub enum Taken<T> {
    // a code, and the index of what follows it
    One(T, CodeBytes),
    // an end code, with its instruction's size
    Last(Halfwords),
    // no code, with the index that refusal 6 holds
    Bad(CodeBytes),
}

// The bytes of the code that a first byte begins.
pub fn code_bytes(b: u8) -> usize
    ensures { (result ≡ (spec_row_of b).bytes) × (1 ≤ result) × (result ≤ 4) }
{
    (table::ROWS[b as usize] % 8) as usize
}

// The size of its instruction.
pub fn instruction_size(b: u8) -> Halfwords
    ensures { (result ≡ (spec_row_of b).size) × (result.0 ≤ 2) }
{
    Halfwords((table::ROWS[b as usize] / 8 % 4) as u32)
}

// The table itself, to be lent to whoever goes over many codes: a constant array is laid on the stack anew wherever it is indexed. The type
// says that it is this table and no other.
#[derive(Clone, Copy)]
pub struct RowTable {
    entries: [u8; 256],
}

impl Model for RowTable {
    ghost Value = { List ℕ };

    ghost view = { λ t. t.entries };

    ghost inverse = { λ s. record { entries = s } };

    ghost invariant = { λ t. t.entries ≡ row_numbers };
}

impl RowTable {
    pub fn new() -> RowTable
        ensures { result ≡ row_numbers }
    {
        RowTable {
            entries: table::ROWS,
        }
    }

    // The table of whoever holds its numbers already.
    pub fn from_rows(rows: [u8; 256]) -> RowTable
        requires { rows ≡ row_numbers }
        ensures { result ≡ row_numbers }
    {
        RowTable { entries: rows }
    }

    // Its numbers, by first byte.
    pub fn rows(&self) -> &[u8; 256]
        ensures { result.now ≡ row_numbers }
    {
        &self.entries
    }

    // A first byte's entry.
    fn of(&self, b: u8) -> u8
        ensures { result ≡ entry_of b }
    {
        self.entries[b as usize]
    }
}

// SP rises by n words.
fn up(n: u32) -> Meaning
    ensures { result ≡ Meaning.Does (Undo.Up (stack_words n)) }
{
    Meaning::Does(Undo::Up(StackWords(n)))
}

// Pop a list of r0-r12, and LR if it is listed.
fn pop(others: u32, lr: bool) -> Meaning
    requires { others < 8192 }
    ensures { result ≡ Meaning.Does (Undo.Pop (others + spec_lr_if (if lr then 1 else 0))) }
{
    Meaning::Does(Undo::Pop(others + lr_if(lr)))
}

// vpop dS-dE, where the list is not empty.
fn vpop(s: u32, e: u32) -> Meaning
    ensures { result ≡ (if leb s e then Meaning.Does (Undo.Vpop s e) else Meaning.Undefined) }
{
    if s <= e {
        Meaning::Does(Undo::Vpop(s, e))
    } else {
        Meaning::Undefined
    }
}

// SP = rX, but for X = 13 and X = 15.
fn sp_from(x: u32) -> Meaning
    ensures { result ≡ (if eqb x 13 || eqb x 15 then Meaning.Undefined else Meaning.Does (Undo.SpFrom x)) }
{
    match x {
        13 | 15 => Meaning::Undefined,
        _ => Meaning::Does(Undo::SpFrom(x)),
    }
}

// LR takes the word at SP, and SP rises by `low` words; the bits above must be 0.
fn load_lr(high: u32, low: u32) -> Meaning
    ensures { result ≡ (if eqb high 0 then Meaning.Does (Undo.LoadLr (stack_words low)) else Meaning.Undefined) }
{
    if high == 0 {
        Meaning::Does(Undo::LoadLr(StackWords(low)))
    } else {
        Meaning::Undefined
    }
}

// What a code means, by its first byte and its value, which is its bytes as one number: the rows of RULES 3.2. docs/POPS.md reads those that pop.
pub fn means(b: u8, v: u32) -> Meaning
    ensures { result ≡ (spec_row_of b).means v }
{
    match b {
        0x00..=0x7F => up(bits(v, 0, 7)),
        0x80..=0xBF => pop(bits(v, 0, 13), bit(v, 13)),
        0xC0..=0xCF => sp_from(bits(v, 0, 4)),
        0xD0..=0xD7 => pop(from_r4(4 + bits(v, 0, 2)), bit(v, 2)),
        0xD8..=0xDF => pop(from_r4(8 + bits(v, 0, 2)), bit(v, 2)),
        0xE0..=0xE7 => vpop(8, 8 + bits(v, 0, 3)),
        0xE8..=0xEB => up(bits(v, 0, 10)),
        0xEC..=0xED => pop(bits(v, 0, 8), bit(v, 8)),
        0xEF => load_lr(bits(v, 4, 4), bits(v, 0, 4)),
        0xF5 => vpop(bits(v, 4, 4), bits(v, 0, 4)),
        0xF6 => vpop(16 + bits(v, 4, 4), 16 + bits(v, 0, 4)),
        0xF7 | 0xF9 => up(bits(v, 0, 16)),
        0xF8 | 0xFA => up(bits(v, 0, 24)),
        0xFB | 0xFC => Meaning::Does(Undo::Nothing),
        0xFD | 0xFE | 0xFF => Meaning::End,
        _ => Meaning::Undefined,
    }
}

// A byte at a place, with its range.
fn byte(codes: &[u8], at: usize) -> u32
    requires { at < length codes.now }
    ensures { (result ≡ get_or codes.now at 0) × (result < 256) }
{
    codes[at] as u32
}

// The n bytes from a place as one number, the first highest (RULES 3.1).
fn value(codes: &[u8], at: usize, n: usize) -> u32
    requires { (1 ≤ n) × (n ≤ 4) × (at + n ≤ length codes.now) }
    ensures { result ≡ value_of (take n (drop at codes.now)) 0 }
{
    let one = byte(codes, at);
    if n == 1 {
        return one;
    }
    let two = 256 * one + byte(codes, at + 1);
    if n == 2 {
        return two;
    }
    let three = 256 * two + byte(codes, at + 2);
    if n == 3 {
        return three;
    }
    256 * three + byte(codes, at + 3)
}

// The code at an index, by its first byte, its size and its value; `next` is the index of what follows it.
fn take_as(b: u8, size: Halfwords, v: u32, at: CodeBytes, next: CodeBytes) -> Taken<Code>
    requires { (size ≡ (spec_row_of b).size) × (next ≡ spec_code_bytes (at.0 + (spec_row_of b).bytes)) }
    ensures { result ≡ taken_of at.0 (spec_row_of b) ((spec_row_of b).means v) }
{
    let m = means(b, v);
    match m {
        Meaning::Does(undo) => Taken::One(Code { undo, size }, next),
        Meaning::End => Taken::Last(size),
        Meaning::Undefined => Taken::Bad(at),
    }
}

// The code at an index of the code bytes. The table is lent.
pub fn take_at(t: &RowTable, codes: &[u8], at: CodeBytes) -> Taken<Code>
    ensures { result ≡ spec_take_at codes.now at }
{
    let i = at.0;
    if codes.len() <= i {
        return Taken::Bad(at);
    }
    let b = codes[i];
    let row = t.of(b);
    let n = (row % 8) as usize;
    if codes.len() - i < n {
        return Taken::Bad(CodeBytes(codes.len()));
    }
    take_as(
        b,
        Halfwords((row / 8 % 4) as u32),
        value(codes, i, n),
        at,
        CodeBytes(i + n),
    )
}

// Whether a code may have a second byte, where its sort says that this counts: 3 is EF, and the others are F5 and F6 (RULES 3.2).
fn fits(sort: u8, second: u8) -> bool
    ensures { result ≡ fitting sort second }
{
    let high = second / 16;
    if sort == 3 {
        return high == 0;
    }
    high <= second % 16
}

// The code at an index by its entry of the table, where all its bytes are.
fn size_as(row: u8, codes: &[u8], at: CodeBytes) -> Taken<Halfwords>
    requires { (row ≡ entry_of (get_or codes.now at.0 0)) × (at.0 + (spec_row_of (get_or codes.now at.0 0)).bytes ≤ length codes.now) }
    ensures { result ≡ sized (spec_take_at codes.now at) }
{
    let sort = row / 32;
    let size = Halfwords((row / 8 % 4) as u32);
    let next = CodeBytes(at.0 + (row % 8) as usize);
    if sort == 0 {
        return Taken::One(size, next);
    }
    if sort == 1 {
        return Taken::Last(size);
    }
    if sort == 2 {
        return Taken::Bad(at);
    }
    if fits(sort, codes[at.0 + 1]) {
        return Taken::One(size, next);
    }
    Taken::Bad(at)
}

// The code at an index without what it undoes, which going over a list does not need: the entry's sort says what it is.
pub fn size_at(t: &RowTable, codes: &[u8], at: CodeBytes) -> Taken<Halfwords>
    ensures { result ≡ sized (spec_take_at codes.now at) }
{
    let i = at.0;
    if codes.len() <= i {
        return Taken::Bad(at);
    }
    let row = t.of(codes[i]);
    if codes.len() - i < (row % 8) as usize {
        return Taken::Bad(CodeBytes(codes.len())); // cut short
    }
    size_as(row, codes, at)
}
