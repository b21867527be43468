// What the programs of the outline share (RULES 8.18): a report on standard input, or several, and its parts on standard output, each written as
// it is made. What becomes of what is written, no contract can say; what the parts are, `next_part` of `outlining` says.
#![tactic(auto)]

ghost use Rattle.std.specs.Prelude.{◌≤◌, length};
ghost use Rattle.outlining.specs.AsCoded.Parts.{Ready};

use outlining::At;
use programs::Answering;
use std::io::{Read, Write};
use words::Refusal;

// Writes the parts of an outline from where it stands; whether all was taken.
fn write_parts<W: Write, E: Write>(
    output: &mut W,
    errors: &mut E,
    file: &[u8],
    at: At,
    out: &mut [u8],
) -> bool
    requires { (12288 ≤ length out.old) × Ready file.now at }
{
    let mut a = at;
    loop {
        let part = outlining::next_part(file, a, out, 0);
        if !programs::put(output, errors, &out[..part.place]) {
            return false;
        }
        match part.next {
            Some(next) => a = next,
            None => return true,
        }
    }
}

// Writes the line of a refused report.
fn write_refused<W: Write, E: Write>(
    output: &mut W,
    errors: &mut E,
    why: Refusal,
    out: &mut [u8],
) -> bool
    requires { 12288 ≤ length out.old }
{
    let n = listing::put_refusal(out, why);
    programs::put(output, errors, &out[..n])
}

// The outline of a report, which is written part by part.
#[derive(Clone, Copy)]
struct Outline;

impl Answering for Outline {
    ghost room = { 12288 };

    fn answer<W: Write, E: Write>(
        &self,
        output: &mut W,
        errors: &mut E,
        file: &[u8],
        out: &mut [u8],
    ) -> bool {
        match outlining::begin(file) {
            Ok(at) => write_parts(output, errors, file, at, out),
            Err(why) => write_refused(output, errors, why, out),
        }
    }
}

// The outline of one report, and of reports one after the other.
pub fn outline_one<R: Read, W: Write, E: Write>(input: &mut R, output: &mut W, errors: &mut E) {
    let mut out = [0u8; 12288];
    let mut file = [0u8; 65537];
    programs::run_one(&Outline, input, output, errors, &mut file, &mut out);
}

pub fn outline_many<R: Read, W: Write, E: Write>(input: &mut R, output: &mut W, errors: &mut E) {
    let mut out = [0u8; 12288];
    let mut file = [0u8; 65536];
    programs::run_many(&Outline, input, output, errors, &mut file, &mut out);
}
