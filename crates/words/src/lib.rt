// The vocabulary that every other crate speaks: the three units (RULES 1.6), the bits of a word, the refusals (RULES 9), the places. It
// knows neither records nor registers. No function asks anything of its caller.
#![tactic(auto)]

ghost use Rattle.std.specs.Prelude.{◌≡◌, ◌+◌, ◌^◌, ◌<◌, ◌≤◌};
ghost use Rattle.words.specs.Bits.{bits as bits_of, bit as bit_of, even as even_of};
ghost use Rattle.words.specs.Units.{halfword_bytes as spec_halfword_bytes, stack_bytes as spec_stack_bytes, code_word_bytes as spec_code_word_bytes};
ghost use Rattle.words.specs.Refusals.{number as number_of, verdict_number as spec_verdict_number};

// Two bytes: the unit of lengths of functions, starts of epilogues and sizes of instructions (RULES 1.6).
#[derive(Clone, Copy)]
pub struct Halfwords(pub u32);

// The unit of indices into code bytes and of lengths of code lists.
#[derive(Clone, Copy)]
pub struct CodeBytes(pub usize);

// Four bytes: the unit of stack amounts.
#[derive(Clone, Copy)]
pub struct StackWords(pub u32);

// Refusal R is given exactly as RULES 9.R says.
#[derive(Clone, Copy)]
pub enum Refusal {
    // 1: a lent part has a length, an address or an end that will not do (RULES 9.1)
    UnfitInput,
    // 2: the pc lies before the image (RULES 9.2)
    PcBelowBase,
    // 3: the .pdata is out of order, or has a start twice (RULES 9.3)
    StartsNotAscending,
    // 4: a record has a reserved value or is a packed word that cannot be; a writer, too, refuses by it (RULES 9.4)
    Reserved,
    // 5: some byte of a full record is not lent (RULES 9.5)
    OutsideXdata,
    // 6: a code list of the record cannot be read (RULES 9.6); RULES 3.8 says which number it holds
    BadCodes(CodeBytes),
    // 7: prologue and epilogues do not fit into their function, or not beside one another, or are out of order (RULES 9.7)
    BadLayout,
    // 8: SP is where it may not be, or a code loads what is not lent (RULES 9.8)
    BadStack,
    // 9: the pc is in a prologue or an epilogue, but at no first byte of an instruction (RULES 9.9)
    InsideInstruction,
    // 10: the pc is in a conditional epilogue (RULES 9.10)
    Conditional,
    // 11: SP came out lower than it was given (RULES 9.11)
    SpFell,
    // 12: a walk came to a caller that no record covers (RULES 9.12)
    NoRecord,
    // 13: a walk came to a caller that does not move SP (RULES 9.13)
    SpSame,
    // 14: a file is no report (RULES 9.14)
    UnfitReport,
}

// Where a pc stands in its function.
#[derive(Clone, Copy)]
pub enum Place {
    Leaf,
    Prologue,
    Body,
    Epilogue,
}

// The bits of a word.
const WHOLE: u32 = 32;

// `width` bits of a word from bit `low` up.
pub fn bits(word: u32, low: u32, width: u32) -> u32
    ensures { (result ≡ bits_of low width word) × (result < 2 ^ width) }
{
    if 32 <= low {
        return 0;
    }
    let high = word >> low;
    if WHOLE <= width {
        return high;
    }
    high % (1 << width)
}

// Whether a bit of a word is set.
pub fn bit(word: u32, k: u32) -> bool
    ensures { result ≡ bit_of k word }
{
    bits(word, k, 1) == 1
}

// An address with bit 0 cleared.
pub fn even(a: u32) -> u32
    ensures { result ≡ even_of a }
{
    a - a % 2
}

// The named conversions to bytes.
pub fn halfword_bytes(h: Halfwords) -> u64
    ensures { (result ≡ spec_halfword_bytes h) × (result < 8589934592) }
{
    2 * (h.0 as u64)
}

pub fn stack_bytes(w: StackWords) -> u64
    ensures { (result ≡ spec_stack_bytes w) × (result < 17179869184) }
{
    4 * (w.0 as u64)
}

// Code words of a record's head, of which there are at most 255, as code bytes.
pub fn code_word_bytes(n: u32) -> CodeBytes
    ensures { result ≡ spec_code_word_bytes n }
{
    CodeBytes(4 * (n as usize))
}

// The number of a refusal (RULES 9).
pub fn number(r: Refusal) -> u32
    ensures { result ≡ number_of r }
{
    match r {
        Refusal::UnfitInput => 1,
        Refusal::PcBelowBase => 2,
        Refusal::StartsNotAscending => 3,
        Refusal::Reserved => 4,
        Refusal::OutsideXdata => 5,
        Refusal::BadCodes(_) => 6,
        Refusal::BadLayout => 7,
        Refusal::BadStack => 8,
        Refusal::InsideInstruction => 9,
        Refusal::Conditional => 10,
        Refusal::SpFell => 11,
        Refusal::NoRecord => 12,
        Refusal::SpSame => 13,
        Refusal::UnfitReport => 14,
    }
}

// The number of an answer: 0 where nothing is refused.
pub fn verdict_number<T: Copy>(answer: Result<T, Refusal>) -> u32
    ensures { result ≡ spec_verdict_number answer }
{
    match answer {
        Ok(_) => 0,
        Err(r) => number(r),
    }
}
