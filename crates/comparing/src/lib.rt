// A prologue's and an epilogue's instructions in one pass over their codes: the first that is not the one of its code (RULES 13.4). It knows
// neither records nor files.
#![tactic(auto)]

ghost use Rattle.std.specs.Prelude.{◌≡◌, ◌+◌, ◌*◌, ◌^◌, ◌<◌, length, if◌then◌else◌, Ok};
ghost use Rattle.words.specs.Units.{code_bytes, halfword_bytes as spec_halfword_bytes};
ghost use Rattle.unwinding.specs.CodeList.{total};
ghost use Rattle.comparing.specs.Items.{size_of, scan_coded, differs};
ghost use Rattle.comparing.specs.AsCoded.Passes as P;

use codes::{RowTable, Taken, size_at, take_at};
use expected::Expected;
use words::{CodeBytes, Halfwords, halfword_bytes};

// The offset of the first instruction that is not the expected one.
#[derive(Clone, Copy)]
pub struct Differs(pub u64);

// Whether the instruction at an offset is an expected one.
fn stands(code: &[u8], at: u64, e: Expected) -> bool
    ensures { result ≡ P.test code.now at e }
{
    expected::meets(e, thumb::read_at(code, at as usize))
}

// What is found with one more test, at an offset below the others.
fn noted(found: Result<(), Differs>, met: bool, at: u64) -> Result<(), Differs>
    ensures { result ≡ (if met then found else differs at) }
{
    if met { found } else { Err(Differs(at)) }
}

// The first instruction of a prologue that is not the one of its code. Its codes are those from index 0, whose instructions take so many
// bytes: the first code's stands last. The table of codes is lent.
pub fn prologue(t: &RowTable, codes: &[u8], code: &[u8], size: u64) -> Result<(), Differs>
    requires { size ≡ total size_of (scan_coded codes.now (code_bytes 0)).list }
    ensures { result ≡ P.prologue_pass code.now (scan_coded codes.now (code_bytes 0)).list (Ok tt) }
{
    let mut found = Ok(());
    let mut left = size;
    let mut i: usize = 0;
    while i < codes.len() {
        let taken = take_at(t, codes, CodeBytes(i));
        match taken {
            Taken::One(c, next) => {
                let n = c.size;
                left -= halfword_bytes(n);
                let met = stands(code, left, expected::in_prologue(codes[i], c));
                found = noted(found, met, left);
                i = next.0;
            }
            Taken::Last(_) => {
                return found;
            }
            Taken::Bad(_) => {
                return found;
            }
        }
    }
    found
}

// Whether FF stands at an index.
fn returns_at(t: &RowTable, codes: &[u8], at: CodeBytes) -> bool
    ensures { result ≡ P.last_of (scan_coded codes.now at).list (scan_coded codes.now at).ending }
{
    match size_at(t, codes, at) {
        Taken::One(_, _) => false,
        Taken::Last(n) => n.0 == 0,
        Taken::Bad(_) => false,
    }
}

// The instruction of an end code of this size, if it has one.
fn end_at(code: &[u8], at: u64, size: Halfwords) -> Result<(), Differs>
    ensures { result ≡ P.end_pass code.now at (Ok (spec_halfword_bytes size)) }
{
    if size.0 == 0 {
        return Ok(());
    }
    noted(Ok(()), stands(code, at, expected::at_end(size)), at)
}

// The same of an epilogue from an offset on, whose codes are those from an index: the first code's instruction stands first.
pub fn epilogue(
    t: &RowTable,
    codes: &[u8],
    index: CodeBytes,
    code: &[u8],
    start: u64,
) -> Result<(), Differs>
    requires { start + 4 * length codes.now < 2 ^ 64 }
    ensures { result ≡ P.epilogue_pass code.now start (scan_coded codes.now index).list (scan_coded codes.now index).ending }
{
    let mut at = start;
    let mut i = index.0;
    while i < codes.len() {
        let taken = take_at(t, codes, CodeBytes(i));
        match taken {
            Taken::One(c, next) => {
                let n = c.size;
                if !stands(
                    code,
                    at,
                    expected::in_epilogue(returns_at(t, codes, next), c),
                ) {
                    return Err(Differs(at));
                }
                at += halfword_bytes(n);
                i = next.0;
            }
            Taken::Last(size) => {
                return end_at(code, at, size);
            }
            Taken::Bad(_) => {
                return Ok(());
            }
        }
    }
    Ok(())
}
