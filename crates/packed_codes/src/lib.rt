// The code bytes that a packed word stands for: the prologue's codes in reverse, and the epilogue's. It knows neither registers' values
// nor the stack.
#![tactic(auto)]

ghost use Rattle.std.specs.Prelude.{◌≡◌, ◌∷◌, ◌++◌, [], true, false, ◌&&◌, not, ◌+◌, ◌≤◌, ◌<◌, eqb};
ghost use Rattle.words.specs.Bits.{bits as bits_of};
ghost use Rattle.codes.specs.Table.{lr_if};
ghost use Rattle.packed.specs.Packed.{Fit, fields as fields_of, amount as amount_of};
ghost use Rattle.packed_codes.specs.PackedCodes.{when, up_code, vpop_code, up_to, pop_sized, pop_code, low, chain_code as spec_chain_code, first_list as spec_first_list, leave as leave_of, second_list as spec_second_list, written, write_codes as spec_write_codes, codes_given as spec_codes_given};
ghost use Rattle.packed_codes.specs.AsCoded.Out.{puts};

use codes::list::from_r4;
use packed::{Packed, allowed, amount, ef, fields, pf, registers};
use words::{CodeBytes, Refusal, StackWords, bits};

// A packed record's code bytes and how long its two lists are (RULES 4.19).
#[derive(Clone, Copy)]
pub struct CodesOf {
    pub bytes: [u8; 16],
    pub first: CodeBytes,
    pub second: CodeBytes,
}

// The X of a list r4-rX, among the four numbers from `first` up.
fn top_from(list: u32, first: u32) -> Option<u32>
    requires { (4 ≤ first) × (first ≤ 8) }
    ensures { result ≡ up_to 4 first list }
{
    for x in first..first + 4 {
        if list == from_r4(x) {
            return Some(x);
        }
    }
    None
}

// The nop of what sets r11, by the list that is pushed: of 16 bits for r11 and LR and nothing else (RULES 4.6).
fn chain_code(list: u32) -> u8
    ensures { result ≡ spec_chain_code list }
{
    if list == 0x4800 {
        return 0xFB;
    }
    0xFC
}

// Sixteen code bytes, written from the first on, and how many are written.
#[derive(Clone, Copy)]
struct Out {
    bytes: [u8; 16],
    len: usize,
}

// The largest amount, in words, that one byte codes (RULES 4.13).
const NARROW_WORDS: u32 = 127;

// The Reg that saves no d register (RULES 4.4).
const NO_D: u32 = 7;

impl Out {
    // One more code byte, while there is room.
    fn put(&mut self, b: u8)
        ensures { self.new ≡ puts self.old (b ∷ []) }
    {
        if 16 <= self.len {
            return;
        }
        self.bytes[self.len] = b;
        self.len += 1;
    }

    // A code of one byte if a bit is set.
    fn put_if(&mut self, bit: u32, b: u8)
        ensures { self.new ≡ puts self.old (when (eqb bit 1) (b ∷ [])) }
    {
        if bit == 1 {
            self.put(b);
        }
    }

    // The code of an amount, if it is not 0 (RULES 4.13).
    fn up(&mut self, amount: StackWords)
        requires { amount.0 < 1024 }
        ensures { self.new ≡ puts self.old (up_code amount) }
    {
        let n = amount.0;
        if n == 0 {
            return;
        }
        if n <= NARROW_WORDS {
            self.put(n as u8);
            return;
        }
        self.put((0xE8 + n / 256) as u8);
        self.put((n % 256) as u8);
    }

    // The code of the amount unless it is folded.
    fn adjust(&mut self, p: Packed, fold: bool)
        requires { Fit p }
        ensures { self.new ≡ puts self.old (when (not fold) (up_code (amount_of p))) }
    {
        if fold {
            return;
        }
        self.up(amount(p));
    }

    // The code of the d list, if there is one (RULES 4.4).
    fn vpop(&mut self, p: Packed)
        requires { Fit p }
        ensures { self.new ≡ puts self.old (vpop_code p) }
    {
        if p.r != 1 {
            return;
        }
        if p.reg == NO_D {
            return;
        }
        self.put((0xE0 + p.reg) as u8);
    }

    // The code of a pop of 16 bits, by LR's bit and the others of the list: D0-D7 for r4-rX, else EC-ED.
    fn pop16(&mut self, others: u32, lr: u32)
        requires { (others < 256) × (lr < 2) }
        ensures { self.new ≡ puts self.old (pop_sized true others lr) }
    {
        match top_from(others, 4) {
            Some(x) => self.put((0xD0 + x % 4 + 4 * lr) as u8),
            None => {
                self.put((0xEC + lr) as u8);
                self.put(others as u8);
            }
        }
    }

    // The code of a pop of 32 bits, by LR's bit and the others of the list: D8-DF for r4-rX, else 80-BF.
    fn pop32(&mut self, others: u32, lr: u32)
        requires { (others < 8192) × (lr < 2) }
        ensures { self.new ≡ puts self.old (pop_sized false others lr) }
    {
        match top_from(others, 8) {
            Some(x) => self.put((0xD8 + x % 4 + 4 * lr) as u8),
            None => {
                self.put((0x80 + others / 256 + 32 * lr) as u8);
                self.put((others % 256) as u8);
            }
        }
    }

    // The code of a pop, if the list is not empty. It has 16 bits if it may (`narrow`) and none of r8-r12 is listed (RULES 4.12).
    fn pop(&mut self, list: u32, narrow: bool)
        requires { list ≡ bits_of 0 13 list + lr_if (bits_of 14 1 list) }
        ensures { self.new ≡ puts self.old (pop_code (narrow && low (bits_of 0 13 list)) (bits_of 0 13 list) (bits_of 14 1 list)) }
    {
        if list == 0 {
            return;
        }
        if narrow && bits(list, 8, 5) == 0 {
            self.pop16(bits(list, 0, 8), bits(list, 14, 1));
            return;
        }
        self.pop32(bits(list, 0, 13), bits(list, 14, 1));
    }

    // The first list: the prologue's codes in reverse, and FF (RULES 4.16).
    fn first_list(&mut self, word: u32)
        ensures { self.new ≡ puts self.old (spec_first_list (fields_of word)) }
    {
        let p = fields(word);
        let fold = pf(p);
        self.adjust(p, fold);
        self.vpop(p);
        let list = registers(word, fold);
        self.put_if(p.c, chain_code(list));
        self.pop(list, true);
        self.put_if(p.h, 0x04);
        self.put(0xFF);
    }

    // The pop, which LR leaves, and the return by a load (RULES 4.8).
    fn leave_loading(&mut self, list: u32)
        ensures { self.new ≡ puts self.old (pop_code (low (bits_of 0 13 list)) (bits_of 0 13 list) 0 ++ (0xEF ∷ 0x05 ∷ 0xFF ∷ [])) }
    {
        self.pop(bits(list, 0, 13), true);
        self.put(0xEF);
        self.put(0x05);
        self.put(0xFF);
    }

    // The pop, which has 32 bits with LR in it (RULES 4.12), and the return by a branch (RULES 4.10).
    fn leave_jumping(&mut self, p: Packed, list: u32)
        requires { Fit p × (list ≡ bits_of 0 13 list + lr_if p.l) }
        ensures { self.new ≡ puts self.old (pop_code (low (bits_of 0 13 list) && eqb p.l 0) (bits_of 0 13 list) p.l ++ when (eqb p.h 1) (0x04 ∷ []) ++ ((0xFC + p.ret) ∷ [])) }
    {
        self.pop(list, p.l == 0);
        self.put_if(p.h, 0x04);
        self.put((0xFC + p.ret) as u8);
    }

    // The pop and the return at the end of an epilogue.
    fn leave(&mut self, p: Packed, list: u32)
        requires { Fit p × (list ≡ bits_of 0 13 list + lr_if p.l) }
        ensures { self.new ≡ puts self.old (leave_of p (bits_of 0 13 list)) }
    {
        if p.h == 1 && p.l == 1 {
            self.leave_loading(list);
            return;
        }
        if p.ret == 0 {
            self.pop(list, true);
            self.put(0xFF);
            return;
        }
        self.leave_jumping(p, list);
    }

    // The epilogue's codes, unless Ret=3.
    fn second_list(&mut self, word: u32)
        ensures { self.new ≡ puts self.old (spec_second_list (fields_of word)) }
    {
        let p = fields(word);
        if p.ret == 3 {
            return;
        }
        let fold = ef(p);
        let list = registers(word, fold);
        self.adjust(p, fold);
        self.vpop(p);
        self.leave(p, list);
    }
}

// Both lists of a word.
fn both_lists(word: u32) -> CodesOf
    ensures { result ≡ written (fields_of word) }
{
    let mut out = Out {
        bytes: [0u8; 16],
        len: 0,
    };
    out.first_list(word);
    let first = out.len;
    out.second_list(word);
    let bytes = out.bytes;
    CodesOf {
        bytes,
        first: CodeBytes(first),
        second: CodeBytes(out.len - first),
    }
}

// The code bytes of a packed word, and how long its two lists are (RULES 4.19).
pub fn write_codes(word: u32) -> Result<CodesOf, Refusal>
    ensures { result ≡ spec_write_codes word }
{
    if allowed(fields(word)) {
        return Ok(both_lists(word));
    }
    Err(Refusal::Reserved)
}

// What the code writer's answer counts as where bytes and lengths are owed: zeros if it is refused (RULES 4.19).
pub fn codes_given(codes: Result<CodesOf, Refusal>) -> CodesOf
    ensures { result ≡ spec_codes_given codes }
{
    match codes {
        Ok(codes) => codes,
        Err(_) => CodesOf {
            bytes: [0u8; 16],
            first: CodeBytes(0),
            second: CodeBytes(0),
        },
    }
}
