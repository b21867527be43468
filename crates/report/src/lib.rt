// The report file as bytes (RULES 8.1): its numbers, its registers, and where its parts lie. It neither reads nor writes.
#![tactic(auto)]

ghost use Rattle.std.specs.Prelude.{◌≡◌, ◌≤◌, length, take, IfOk};
ghost use Rattle.lent.specs.Parts.{same};
ghost use Rattle.report.specs.Report.{mark, head_bytes, words32, words64, regs_of};
ghost use Rattle.report.specs.AsCoded.Parts.{parts, Lie};

use lent::{word32, word32_in, word64_in};
use machine::Regs;
use words::Refusal;

// The largest report.
pub const REPORT_BYTES: usize = 65536;

// The bytes before the .pdata: the mark, 22 words, 32 double words.
const HEAD_BYTES: usize = 352;

// What a report holds: its words, and where its parts lie in the file, each up to where the next one starts.
#[derive(Clone, Copy)]
pub struct Parts {
    pub image: u32,
    pub rva: u32,
    pub base: u32,
    pub regs: Regs,
    pub pdata: usize,
    pub xdata: usize,
    pub stack: usize,
    pub end: usize,
}

// Whether the file begins with the mark.
fn marked(file: &[u8]) -> bool
    requires { 8 ≤ length file.now }
    ensures { result ≡ same (take 8 file.now) mark }
{
    check::same(&file[0..8], b"WLK\x01\0\0\0\0")
}

// r0-r12. These three functions read a head that is there: `read_report` has tested the length.
fn integers(file: &[u8]) -> [u32; 13]
    requires { head_bytes ≤ length file.now }
    ensures { result ≡ words32 file.now 32 13 }
{
    let mut r = [0u32; 13];
    for i in 0..13 {
        r[i] = word32_in(file, 32 + 4 * i);
    }
    r
}

// d0-d31.
fn doubles(file: &[u8]) -> [u64; 32]
    requires { head_bytes ≤ length file.now }
    ensures { result ≡ words64 file.now 96 32 }
{
    let mut d = [0u64; 32];
    for i in 0..32 {
        d[i] = word64_in(file, 96 + 8 * i);
    }
    d
}

fn registers(file: &[u8]) -> Regs
    requires { head_bytes ≤ length file.now }
    ensures { result ≡ regs_of file.now }
{
    let r = integers(file);
    let d = doubles(file);
    Regs {
        r,
        sp: word32(file, 84),
        lr: word32(file, 88),
        pc: word32(file, 92),
        d,
    }
}

// A report, or 14 (RULES 8.2). Its lengths add up to the file's, without wrap.
pub fn read_report(file: &[u8]) -> Result<Parts, Refusal>
    ensures value { result ≡ parts file.now }
    ensures lie { IfOk result (Lie file.now) }
{
    if file.len() < HEAD_BYTES || REPORT_BYTES < file.len() || !marked(file) {
        return Err(Refusal::UnfitReport);
    }
    let xdata = (HEAD_BYTES as u64) + 8 * (word32(file, 12) as u64);
    let stack = xdata + (word32(file, 20) as u64);
    let end = stack + (word32(file, 28) as u64);
    if end != file.len() as u64 {
        return Err(Refusal::UnfitReport);
    }
    Ok(Parts {
        image: word32(file, 8),
        rva: word32(file, 16),
        base: word32(file, 24),
        regs: registers(file),
        pdata: HEAD_BYTES,
        xdata: xdata as usize,
        stack: stack as usize,
        end: end as usize,
    })
}
