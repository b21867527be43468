// The text of a FIT file (RULES 13.12): whether its record fits its code, as bytes. It neither reads nor writes.
#![tactic(auto)]

ghost use Rattle.std.specs.Prelude.{◌++◌, ◌≡◌, ◌≤◌, length};
ghost use Rattle.lent.specs.Lent.{lent};
ghost use Rattle.lent.specs.Parts.{between};
ghost use Rattle.text.specs.Text.{text, hex8};
ghost use Rattle.text.specs.Overlay.{overlay, Laid};
ghost use Rattle.fitting.specs.Fitting.{fitted};
ghost use Rattle.fit_file.specs.AsCoded.Parts.{Lie};
ghost use Rattle.fits_text.specs.FitsText.{number_text, refusal_text, answer_text, file_fitted, fits_text as spec_fits_text};

use fit_file::{FitParts, read_fit};
use fitting::FitRefusal;
use text::{put_byte, put_count, put_hex8, put_text};

// The largest text.
pub const FITS_BYTES: usize = 32;

// `refused R`.
fn put_number(out: &mut [u8], refusal: FitRefusal) -> usize
    ensures { Laid out.old 0 (number_text refusal) result out.new }
{
    let number = fitting::number(refusal);
    put_count(out, 0, b"refused ", number as u64)
}

// ` at OFFSET`, its last eight digits: there are no others, since it lies in a function.
fn put_offset(out: &mut [u8], at: usize, offset: u64) -> usize
    ensures { Laid out.old at (text " at " ++ hex8 offset) result out.new }
{
    let next = put_text(out, at, b" at ");
    put_hex8(out, next, (offset % 4294967296) as u32)
}

// Why a record does not fit.
fn put_refusal(out: &mut [u8], refusal: FitRefusal) -> usize
    ensures { Laid out.old 0 (refusal_text refusal) result out.new }
{
    let next = put_number(out, refusal);
    match refusal {
        FitRefusal::Record(_) => next,
        FitRefusal::Short => next,
        FitRefusal::Differs(offset) => put_offset(out, next, offset),
    }
}

// The line without its end.
fn put_answer(out: &mut [u8], answer: Result<(), FitRefusal>) -> usize
    ensures { Laid out.old 0 (answer_text answer) result out.new }
{
    match answer {
        Ok(()) => put_text(out, 0, b"fits"),
        Err(refusal) => put_refusal(out, refusal),
    }
}

// Whether the record of a file's parts fits their code.
fn check_parts(file: &[u8], p: FitParts) -> Result<(), FitRefusal>
    requires { Lie file.now p }
    ensures { result ≡ fitted (lent p.rva (between file.now p.xdata p.code)) p.word (between file.now p.code p.end) }
{
    let xdata = p.xdata;
    let code = p.code;
    let end = p.end;
    fitting::check(p.rva, &file[xdata..code], p.word, &file[code..end])
}

// The same of a file, or 14.
fn check_file(file: &[u8]) -> Result<(), FitRefusal>
    ensures { result ≡ file_fitted file.now }
{
    check_parts(file, read_fit(file)?)
}

// The text of a FIT file, of which no more than FITS_BYTES are ever needed.
pub fn answer_fits(file: &[u8], out: &mut [u8]) -> usize
    ensures value { (result ≡ length (spec_fits_text file.now)) × (out.new ≡ overlay out.old 0 (spec_fits_text file.now)) }
    ensures upper_bound { result ≤ 32 }
{
    let answer = check_file(file);
    let next = put_answer(out, answer);
    put_byte(out, next, b'\n')
}
