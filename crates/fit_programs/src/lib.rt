// What the programs of the FIT file share (RULES 13.13): a file on standard input, or several, and whether its record fits its code on standard
// output. What becomes of what is written, no contract can say; what the text is, `answer_fits` of `fits_text` says.
#![tactic(auto)]

ghost use Rattle.std.specs.Prelude.{◌≤◌, length};

use fits_text::answer_fits;
use programs::Answering;
use std::io::{Read, Write};

// Whether a FIT file's record fits its code.
#[derive(Clone, Copy)]
struct Fit;

impl Answering for Fit {
    ghost room = { 32 };

    fn answer<W: Write, E: Write>(
        &self,
        output: &mut W,
        errors: &mut E,
        file: &[u8],
        out: &mut [u8],
    ) -> bool {
        let n = answer_fits(file, out);
        programs::put(output, errors, &out[..n])
    }
}

// The answer to one file, and to files one after the other.
pub fn fits_one<R: Read, W: Write, E: Write>(input: &mut R, output: &mut W, errors: &mut E) {
    let mut out = [0u8; 32];
    let mut file = [0u8; 1048577];
    programs::run_one(&Fit, input, output, errors, &mut file, &mut out);
}

pub fn fits_many<R: Read, W: Write, E: Write>(input: &mut R, output: &mut W, errors: &mut E) {
    let mut out = [0u8; 32];
    let mut file = [0u8; 1048576];
    programs::run_many(&Fit, input, output, errors, &mut file, &mut out);
}
