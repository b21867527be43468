// What a program in C or Rust links, as the archive of bin/build-archive: the functions of `exports`, each with its clauses. A slice is passed
// as a pointer and a length, an array as a pointer. No function asks anything of what it is given.
#![tactic(auto)]

ghost use Rattle.std.specs.Prelude.{◌≡◌, length};
ghost use Rattle.lent.specs.Lent.{lent};
ghost use Rattle.pdata.specs.Pdata.{find};
ghost use Rattle.xdata.specs.Xdata.{xdata_size as spec_xdata_size};
ghost use Rattle.packed.specs.Packed.{write_word as spec_write_word};
ghost use Rattle.packed_codes.specs.PackedCodes.{write_codes as spec_write_codes};
ghost use Rattle.text.specs.Overlay.{overlay};
ghost use Rattle.listing.specs.Listing.{listing};
ghost use Rattle.caller_text.specs.CallerText.{caller_text as spec_caller_text};
ghost use Rattle.exports.specs.Numbers.{fields_in as spec_fields_in, FoundTold, SizeTold, WordTold, CodesTold};

// The listing: at most 8,192 bytes.
#[unsafe(no_mangle)]
pub extern "C" fn leafbobbin_walk(report: &[u8], out: &mut [u8]) -> usize
    ensures { (result ≡ length (listing report.now)) × (out.new ≡ overlay out.old 0 (listing report.now)) }
{
    exports::leafbobbin_walk(report, out)
}

// One frame's answer with every register: at most 1,024 bytes.
#[unsafe(no_mangle)]
pub extern "C" fn leafbobbin_caller(report: &[u8], out: &mut [u8]) -> usize
    ensures { (result ≡ length (spec_caller_text report.now)) × (out.new ≡ overlay out.old 0 (spec_caller_text report.now)) }
{
    exports::leafbobbin_caller(report, out)
}

// The record of a pc: 1, its number, its start and its word; 0 four times if there is none.
#[unsafe(no_mangle)]
pub extern "C" fn leafbobbin_find(image: u32, pdata: &[u8], pc: u32, out: &mut [u64; 4]) -> u32
    ensures { FoundTold (find image pdata.now pc) result out.new }
{
    exports::leafbobbin_find(image, pdata, pc, out)
}

// The bytes of the .xdata record at an RVA (RULES 2.13).
#[unsafe(no_mangle)]
pub extern "C" fn leafbobbin_size(rva: u32, xdata: &[u8], at: u32, bytes: &mut u32) -> u32
    ensures { SizeTold (spec_xdata_size (lent rva xdata.now) at) result bytes.new }
{
    exports::leafbobbin_size(rva, xdata, at, bytes)
}

// The packed word of nine fields (RULES 4.18).
#[unsafe(no_mangle)]
pub extern "C" fn leafbobbin_word(fields: &[u32; 9], word: &mut u32) -> u32
    ensures { WordTold (spec_write_word (spec_fields_in fields.now)) result word.new }
{
    exports::leafbobbin_word(fields, word)
}

// The 16 code bytes of a packed word, and how many of them each of its lists has (RULES 4.19).
#[unsafe(no_mangle)]
pub extern "C" fn leafbobbin_codes(word: u32, bytes: &mut [u8; 16], lens: &mut [usize; 2]) -> u32
    ensures { CodesTold (spec_write_codes word) result bytes.new lens.new }
{
    exports::leafbobbin_codes(word, bytes, lens)
}
