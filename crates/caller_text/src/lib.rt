// The caller's text (RULES 8.6): one frame's answer, and the registers of the caller, as bytes. It neither reads nor writes.
#![tactic(auto)]

ghost use Rattle.std.specs.Prelude.{◌++◌, ◌≡◌, ◌≤◌, length};
ghost use Rattle.frame.specs.Frame.{frame, unwound};
ghost use Rattle.text.specs.Text.{text, hex8, hex16, numbered};
ghost use Rattle.text.specs.Overlay.{overlay, Laid};
ghost use Rattle.report.specs.AsCoded.Parts.{inputs_in, Lie};
ghost use Rattle.caller_text.specs.CallerText.{word_line, r_line, d_line, regs_text, given_text, told_text, unwound_text, caller_text as spec_caller_text};

use frame::{Told, Unwound};
use listing::{put_place, put_refusal, put_refused};
use machine::Regs;
use report::{Parts, read_report};
use text::{put_byte, put_count, put_hex8, put_hex16, put_text};
use words::{Place, Refusal};

// The largest text (RULES 8.7).
pub const CALLER_BYTES: usize = 1024;

// What follows a register's name in its line: its value, in 8 or 16 hex digits.
fn put_value(out: &mut [u8], at: usize, value: u32) -> usize
    ensures { Laid out.old at (text " " ++ hex8 value ++ text "\n") result out.new }
{
    let next = put_byte(out, at, b' ');
    let next = put_hex8(out, next, value);
    put_byte(out, next, b'\n')
}

fn put_double(out: &mut [u8], at: usize, value: u64) -> usize
    ensures { Laid out.old at (text " " ++ hex16 value ++ text "\n") result out.new }
{
    let next = put_byte(out, at, b' ');
    let next = put_hex16(out, next, value);
    put_byte(out, next, b'\n')
}

// The line of sp, lr or pc.
fn put_named(out: &mut [u8], at: usize, name: &[u8], value: u32) -> usize
    ensures { Laid out.old at (word_line name.now value) result out.new }
{
    let next = put_text(out, at, name);
    put_value(out, next, value)
}

// r0-r12.
fn put_integers(out: &mut [u8], at: usize, r: [u32; 13]) -> usize
    ensures { Laid out.old at (numbered (r_line r) 0 13) result out.new }
{
    let mut next = at;
    for i in 0..13 {
        next = put_count(out, next, b"r", i as u64);
        next = put_value(out, next, r[i]);
    }
    next
}

// d0-d31.
fn put_doubles(out: &mut [u8], at: usize, d: [u64; 32]) -> usize
    ensures { Laid out.old at (numbered (d_line d) 0 32) result out.new }
{
    let mut next = at;
    for i in 0..32 {
        next = put_count(out, next, b"d", i as u64);
        next = put_double(out, next, d[i]);
    }
    next
}

// Every register.
fn put_registers(out: &mut [u8], at: usize, regs: Regs) -> usize
    ensures { Laid out.old at (regs_text regs) result out.new }
{
    let next = put_integers(out, at, regs.r);
    let next = put_named(out, next, b"sp", regs.sp);
    let next = put_named(out, next, b"lr", regs.lr);
    let next = put_named(out, next, b"pc", regs.pc);
    put_doubles(out, next, regs.d)
}

// The first line of a frame that unwound.
fn put_given(out: &mut [u8], place: Place, handler: u32, codes: usize) -> usize
    ensures { Laid out.old 0 (given_text place handler codes) result out.new }
{
    let next = put_text(out, 0, b"caller place ");
    let next = put_place(out, next, place, b' ');
    let next = put_text(out, next, b"handler ");
    let next = put_hex8(out, next, handler);
    put_count(out, next, b" codes ", codes as u64)
}

// The first line, without its end.
fn put_told(out: &mut [u8], told: Result<Told, Refusal>) -> usize
    ensures { Laid out.old 0 (told_text told) result out.new }
{
    match told {
        Ok(c) => put_given(out, c.place, c.handler, c.codes),
        Err(refusal) => put_refused(out, 0, refusal),
    }
}

// One frame's answer.
fn put_unwound(out: &mut [u8], answer: Unwound) -> usize
    ensures { Laid out.old 0 (unwound_text answer) result out.new }
{
    let next = put_told(out, answer.told);
    let next = put_byte(out, next, b'\n');
    put_registers(out, next, answer.regs)
}

// One frame of a report's parts.
fn show_parts(file: &[u8], p: Parts, out: &mut [u8]) -> usize
    requires { Lie file.now p }
    ensures { Laid out.old 0 (unwound_text (unwound p.regs (frame (inputs_in file.now p) p.regs))) result out.new }
{
    let answer = frame::unwind(
        p.image,
        &file[p.pdata..p.xdata],
        p.rva,
        &file[p.xdata..p.stack],
        p.base,
        &file[p.stack..p.end],
        p.regs,
    );
    put_unwound(out, answer)
}

// The caller of a report's frame, of which no more than CALLER_BYTES are ever needed.
pub fn show_caller(file: &[u8], out: &mut [u8]) -> usize
    ensures value { (result ≡ length (spec_caller_text file.now)) × (out.new ≡ overlay out.old 0 (spec_caller_text file.now)) }
    ensures upper_bound { result ≤ 1024 }
{
    match read_report(file) {
        Ok(p) => show_parts(file, p, out),
        Err(refusal) => put_refusal(out, refusal),
    }
}
