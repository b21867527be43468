// The reader on code bytes: one code after the other, a pass over a code list, and skipping codes. It knows neither registers nor
// records.
#![tactic(auto)]

ghost use Rattle.std.specs.Prelude.{◌≡◌};
ghost use Rattle.codes.specs.Code.{take_at, scan as scan_of};
ghost use Rattle.codes.specs.AsCoded.Sizing.{sized};
ghost use Rattle.reader.specs.AsCoded.Reading.{past, moved, scanned};
ghost use Rattle.reader.specs.AsCoded.Skip.{skip_at};

use codes::{RowTable, Taken, size_at};
use words::{CodeBytes, Halfwords, Refusal, halfword_bytes};

// The reader of RULES 3.6: the code bytes, which are lent, and the index that it has come to.
#[derive(Clone, Copy)]
pub struct Reader<'a> {
    pub codes: &'a [u8],
    pub at: CodeBytes,
}

// What a reader took, without what it undoes, and the reader behind it.
#[derive(Clone, Copy)]
pub struct Step<'a> {
    pub taken: Taken<Halfwords>,
    pub rest: Reader<'a>,
}

// What stands at an index, and where a reader stands that has taken it.
#[derive(Clone, Copy)]
struct Moved {
    taken: Taken<Halfwords>,
    at: CodeBytes,
}

fn move_at(codes: &[u8], at: CodeBytes, t: &RowTable) -> Moved
    ensures { result ≡ moved (sized (take_at codes.now at)) at }
{
    let taken = size_at(t, codes, at);
    match taken {
        Taken::One(_, next) => Moved { taken, at: next },
        Taken::Last(_) => Moved { taken, at },
        Taken::Bad(_) => Moved { taken, at },
    }
}

impl<'a> Reader<'a> {
    pub fn new(codes: &'a [u8], at: CodeBytes) -> Reader<'a>
        ensures { result ≡ record { codes = codes.entry; at = at } }
    {
        Reader { codes, at }
    }

    // Takes one code, and hands the reader on. The table of `codes` is lent.
    pub fn take(self, t: &RowTable) -> Step<'a>
        ensures { (result.taken ≡ sized (take_at self.entry.codes.now self.entry.at))
            × (result.rest ≡ record { codes = self.entry.codes; at = past (sized (take_at self.entry.codes.now self.entry.at)) self.entry.at }) }
    {
        let m = move_at(self.codes, self.at, t);
        Step {
            taken: m.taken,
            rest: Reader {
                codes: self.codes,
                at: m.at,
            },
        }
    }
}

// What a pass over a code list finds: the halfwords of the list's instructions, and of its end code's.
#[derive(Clone, Copy)]
pub struct Ends {
    pub list: u64,
    pub end: u64,
}

// One pass of a reader over the code list at an index. The table of `codes` is lent.
pub fn scan(t: &RowTable, codes: &[u8], at: CodeBytes) -> Result<Ends, Refusal>
    ensures { result ≡ scanned (scan_of codes.now at) }
{
    let mut r = Reader::new(codes, at);
    let mut list: u64 = 0;
    loop {
        let p = r.take(t);
        match p.taken {
            Taken::One(n, _) => {
                list += n.0 as u64;
            }
            Taken::Last(n) => {
                return Ok(Ends {
                    list,
                    end: n.0 as u64,
                });
            }
            Taken::Bad(i) => {
                return Err(Refusal::BadCodes(i));
            }
        }
        r = p.rest;
    }
}

// Skips the codes from an index on whose instructions take n bytes; none if n bytes end inside an instruction or behind the list. The
// table of `codes` is lent.
pub fn skip(t: &RowTable, codes: &[u8], at: CodeBytes, n: u64) -> Option<CodeBytes>
    ensures { result ≡ skip_at codes.now at n }
{
    let mut i = at.0;
    let mut left = n;
    while left != 0 {
        let c = size_at(t, codes, CodeBytes(i));
        match c {
            Taken::One(h, next) => {
                let size = halfword_bytes(h);
                if left < size {
                    return None;
                }
                left -= size;
                i = next.0;
            }
            Taken::Last(_) => {
                return None;
            }
            Taken::Bad(_) => {
                return None;
            }
        }
    }
    Some(CodeBytes(i))
}
