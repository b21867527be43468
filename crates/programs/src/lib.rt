// What the programs share (RULES 8.8 to 8.11): a report on standard input, or several, and the text that is asked for on standard
// output. They are given a reader and two writers, the second for what is said of a failure. What a system's reader gives and what becomes
// of what is written, no contract can say; what the text of a report is, `make` says.
#![tactic(auto)]

ghost use Rattle.std.specs.Prelude.{ℕ, ◌≡◌, ◌≤◌, length};
ghost use Rattle.text.specs.Overlay.{overlay};
ghost use Rattle.programs.specs.Texts.{text_of};
ghost use Rattle.std.specs.Counts.{IsPrefixLen};
ghost use Rattle.programs.specs.Inputs.{Fits};

use caller_text::show_caller;
use listing::list_report;
use std::io::{Read, Write};
use streams::Item;

// What comes next on standard input: a report of so many bytes, at the buffer's start; one inside which the input ended; or nothing more.
#[derive(Clone, Copy)]
pub enum Input {
    Report(usize),
    Cut,
    End,
}

// What a program makes of a report, or of a file: its answer, written.
pub trait Answering {
    // The bytes that it asks of the buffer.
    ghost room: { ℕ };

    // Writes the answer; whether all was taken. The buffer is lent, so that it is not cleared for each.
    fn answer<W: Write, E: Write>(
        &self,
        output: &mut W,
        errors: &mut E,
        file: &[u8],
        out: &mut [u8],
    ) -> bool
        requires { room ≤ length out.old };
}

// Which text: the listing of the walk, or the caller of the one frame.
#[derive(Clone, Copy)]
pub enum Text {
    Listing,
    Caller,
}

// The text of a report, at the start of the buffer.
fn make(text: Text, file: &[u8], out: &mut [u8]) -> usize
    ensures value { (result ≡ length (text_of text file.now)) × (out.new ≡ overlay out.old 0 (text_of text file.now)) }
    ensures upper_bound { result ≤ 8192 }
{
    match text {
        Text::Listing => list_report(file, out),
        Text::Caller => show_caller(file, out),
    }
}

// Says among the errors that a read failed, if one did.
fn tell<E: Write>(errors: &mut E, failed: bool) {
    if failed {
        let _ = errors.write_all(b"leafbobbin: a read failed\n");
    }
}

// Writes bytes, or says among the errors that it failed; whether all was taken.
pub fn put<W: Write, E: Write>(output: &mut W, errors: &mut E, bytes: &[u8]) -> bool {
    if output.write_all(bytes).is_ok() {
        return true;
    }
    let _ = errors.write_all(b"leafbobbin: a write failed\n");
    false
}

// The text is made whole before it is written.
impl Answering for Text {
    ghost room = { 8192 };

    fn answer<W: Write, E: Write>(
        &self,
        output: &mut W,
        errors: &mut E,
        file: &[u8],
        out: &mut [u8],
    ) -> bool {
        let n = make(*self, file, out);
        put(output, errors, &out[..n])
    }
}

// Writes the answer and an empty line after it.
fn answer_line<A: Answering, W: Write, E: Write>(
    to: &A,
    output: &mut W,
    errors: &mut E,
    file: &[u8],
    out: &mut [u8],
) -> bool
    requires { A.room ≤ length out.old }
{
    to.answer(output, errors, file, out) && put(output, errors, b"\n")
}

// The next report. One that is too long is none of its bytes: what is no whole report is unfit, and so is that of no bytes.
pub fn take<R: Read, E: Write>(input: &mut R, errors: &mut E, file: &mut [u8]) -> Input
    ensures { Fits result file.new }
{
    match streams::next(input, file) {
        Item::Report(n) => Input::Report(n),
        Item::TooLong => Input::Report(0),
        Item::Cut(failed) => {
            tell(errors, failed);
            Input::Cut
        }
        Item::End(failed) => {
            tell(errors, failed);
            Input::End
        }
    }
}

// How many bytes there are up to the input's end, of no more than the buffer holds; none of them count if a read fails.
pub fn take_all<R: Read, E: Write>(input: &mut R, errors: &mut E, file: &mut [u8]) -> usize
    ensures { IsPrefixLen result file.new }
{
    let filled = streams::fill(input, file);
    let count = filled.count;
    let failed = filled.failed;
    tell(errors, failed);
    if failed {
        return 0;
    }
    count
}

// Answers the next report, and says whether to go on.
fn answer_next<A: Answering, R: Read, W: Write, E: Write>(
    to: &A,
    input: &mut R,
    output: &mut W,
    errors: &mut E,
    file: &mut [u8],
    out: &mut [u8],
) -> bool
    requires { A.room ≤ length out.old }
{
    match take(input, errors, file) {
        Input::Report(n) => answer_line(to, output, errors, &file[..n], out),
        Input::Cut => {
            answer_line(to, output, errors, b"", out);
            false
        }
        Input::End => false,
    }
}

// One report, up to the input's end. Its buffer has room for one byte more than the largest, so that a longer one is seen to be longer.
pub fn run_one<A: Answering, R: Read, W: Write, E: Write>(
    to: &A,
    input: &mut R,
    output: &mut W,
    errors: &mut E,
    file: &mut [u8],
    out: &mut [u8],
)
    requires { A.room ≤ length out.old }
{
    let n = take_all(input, errors, file);
    to.answer(output, errors, &file[..n], out);
}

// Reports one after the other. A proved loop has to end, and nothing says that the input does: it counts turns that no run uses up.
pub fn run_many<A: Answering, R: Read, W: Write, E: Write>(
    to: &A,
    input: &mut R,
    output: &mut W,
    errors: &mut E,
    file: &mut [u8],
    out: &mut [u8],
)
    requires { A.room ≤ length out.old }
{
    for _ in 0..u64::MAX {
        if !answer_next(to, input, output, errors, file, out) {
            return;
        }
    }
}

// The text of one report, and of reports one after the other.
pub fn answer_one<R: Read, W: Write, E: Write>(
    input: &mut R,
    output: &mut W,
    errors: &mut E,
    text: Text,
) {
    let mut out = [0u8; 8192];
    let mut file = [0u8; 65537];
    run_one(&text, input, output, errors, &mut file, &mut out);
}

pub fn answer_many<R: Read, W: Write, E: Write>(
    input: &mut R,
    output: &mut W,
    errors: &mut E,
    text: Text,
) {
    let mut out = [0u8; 8192];
    let mut file = [0u8; 65536];
    run_many(&text, input, output, errors, &mut file, &mut out);
}
