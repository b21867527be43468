// The FIT file as bytes (RULES 13.11): its words, and where its parts lie. It neither reads nor writes.
#![tactic(auto)]

ghost use Rattle.std.specs.Prelude.{◌≡◌, ◌≤◌, length, take, IfOk};
ghost use Rattle.lent.specs.Parts.{same};
ghost use Rattle.fit_file.specs.FitFile.{mark};
ghost use Rattle.fit_file.specs.AsCoded.Parts.{parts, Lie};

use lent::word32;
use words::Refusal;

// The largest FIT file.
pub const FIT_BYTES: usize = 1048576;

// The bytes before the .xdata: the mark and four words.
const HEAD_BYTES: usize = 24;

// What a FIT file holds: its words, and where its parts lie in the file, each up to where the next one starts.
#[derive(Clone, Copy)]
pub struct FitParts {
    pub word: u32,
    pub rva: u32,
    pub xdata: usize,
    pub code: usize,
    pub end: usize,
}

// Whether the file begins with the mark.
fn marked(file: &[u8]) -> bool
    requires { 8 ≤ length file.now }
    ensures { result ≡ same (take 8 file.now) mark }
{
    check::same(&file[0..8], b"FIT\x01\0\0\0\0")
}

// A FIT file, or 14. Its lengths add up to the file's, without wrap.
pub fn read_fit(file: &[u8]) -> Result<FitParts, Refusal>
    ensures value { result ≡ parts file.now }
    ensures lie { IfOk result (Lie file.now) }
{
    if file.len() < HEAD_BYTES || FIT_BYTES < file.len() || !marked(file) {
        return Err(Refusal::UnfitReport);
    }
    let code = (HEAD_BYTES as u64) + (word32(file, 16) as u64);
    let end = code + (word32(file, 20) as u64);
    if end != file.len() as u64 {
        return Err(Refusal::UnfitReport);
    }
    Ok(FitParts {
        word: word32(file, 8),
        rva: word32(file, 12),
        xdata: HEAD_BYTES,
        code: code as usize,
        end: end as usize,
    })
}
