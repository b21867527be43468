// What a program in C or Rust is given: `exports_c` makes an archive of it. A slice is passed as a pointer and a length, an array as a
// pointer. No function asks anything of what it is given.
#![tactic(auto)]

ghost use Rattle.std.specs.Prelude.{◌≡◌, length};
ghost use Rattle.lent.specs.Lent.{lent};
ghost use Rattle.pdata.specs.Pdata.{find};
ghost use Rattle.xdata.specs.Xdata.{xdata_size as spec_xdata_size};
ghost use Rattle.packed.specs.Packed.{write_word as spec_write_word};
ghost use Rattle.packed_codes.specs.PackedCodes.{write_codes as spec_write_codes};
ghost use Rattle.text.specs.Overlay.{overlay};
ghost use Rattle.listing.specs.Listing.{listing};
ghost use Rattle.caller_text.specs.CallerText.{caller_text as spec_caller_text};
ghost use Rattle.exports.specs.Numbers.{fields_in as spec_fields_in, FoundTold, SizeTold, WordTold, CodesTold};

use packed::Packed;
use words::Halfwords;

// A report's bytes in, the text that `walk` or `caller` prints into a lent buffer. The result is the text's length; what does not fit the
// buffer is left out (RULES 8.7).

// The listing: at most 8,192 bytes.
pub fn leafbobbin_walk(report: &[u8], out: &mut [u8]) -> usize
    ensures { (result ≡ length (listing report.now)) × (out.new ≡ overlay out.old 0 (listing report.now)) }
{
    listing::list_report(report, out)
}

// One frame's answer with every register: at most 1,024 bytes.
pub fn leafbobbin_caller(report: &[u8], out: &mut [u8]) -> usize
    ensures { (result ≡ length (spec_caller_text report.now)) × (out.new ≡ overlay out.old 0 (spec_caller_text report.now)) }
{
    caller_text::show_caller(report, out)
}

// The operations on tables (RULES 8.12): the result is the refusal's number, 0 if there is none, and the answer goes into what is lent,
// 0 if it is refused.

// The record of a pc: 1, its number, its start and its word; 0 four times if there is none.
pub fn leafbobbin_find(image: u32, pdata: &[u8], pc: u32, out: &mut [u64; 4]) -> u32
    ensures { FoundTold (find image pdata.now pc) result out.new }
{
    match pdata::find(image, pdata, pc) {
        Ok(Some(e)) => {
            *out = [1, e.number as u64, e.start as u64, e.word as u64];
            0
        }
        Ok(None) => {
            *out = [0u64; 4];
            0
        }
        Err(why) => {
            *out = [0u64; 4];
            words::number(why)
        }
    }
}

// The bytes of the .xdata record at an RVA (RULES 2.13).
pub fn leafbobbin_size(rva: u32, xdata: &[u8], at: u32, bytes: &mut u32) -> u32
    ensures { SizeTold (spec_xdata_size (lent rva xdata.now) at) result bytes.new }
{
    let size = xdata::xdata_size(rva, xdata, at);
    *bytes = size.unwrap_or(0);
    words::verdict_number(size)
}

// Nine fields: Flag, length / 2, Ret, H, Reg, R, L, C, Stack Adjust.
fn fields_in(fields: &[u32; 9]) -> Packed
    ensures { result ≡ spec_fields_in fields.now }
{
    Packed {
        flag: fields[0],
        length: Halfwords(fields[1]),
        ret: fields[2],
        h: fields[3],
        reg: fields[4],
        r: fields[5],
        l: fields[6],
        c: fields[7],
        adjust: fields[8],
    }
}

// The packed word of nine fields (RULES 4.18).
pub fn leafbobbin_word(fields: &[u32; 9], word: &mut u32) -> u32
    ensures { WordTold (spec_write_word (spec_fields_in fields.now)) result word.new }
{
    let written = packed::write_word(fields_in(fields));
    *word = written.unwrap_or(0);
    words::verdict_number(written)
}

// The 16 code bytes of a packed word, and how many of them each of its lists has (RULES 4.19).
pub fn leafbobbin_codes(word: u32, bytes: &mut [u8; 16], lens: &mut [usize; 2]) -> u32
    ensures { CodesTold (spec_write_codes word) result bytes.new lens.new }
{
    match packed_codes::write_codes(word) {
        Ok(codes) => {
            let list = codes.bytes;
            *bytes = list;
            *lens = [codes.first.0, codes.second.0];
            0
        }
        Err(why) => {
            *bytes = [0u8; 16];
            *lens = [0usize; 2];
            words::number(why)
        }
    }
}
