// The .pdata: its records, its order, and the record of a pc.
#![tactic(auto)]

ghost use Rattle.std.specs.Prelude.{◌≡◌, true, ◌/◌, ◌<◌, length};
ghost use Rattle.unwinding.specs.View.{ascending as ascending_of};
ghost use Rattle.pdata.specs.Pdata.{entries, entry_at, starts, last_up_to, find as find_of, find_rva as spec_find_rva, checked as checked_of};

use words::Refusal;

// A .pdata record: its number in the table, its start RVA with bit 0 cleared, and its word 1.
#[derive(Clone, Copy)]
pub struct Entry {
    pub number: usize,
    pub start: u32,
    pub word: u32,
}

// What was found to hold of tables before a record is looked for: refusal 1 is not given for any part (here: for the .pdata's length), and
// refusal 3 not for its starts. A walk asks it once.
#[derive(Clone, Copy)]
pub struct Checked {
    pub fit: bool,
    pub sorted: bool,
}

// The number of records.
pub fn records(pdata: &[u8]) -> usize
    ensures { result ≡ length pdata.now / 8 }
{
    pdata.len() / 8
}

// Record i, one of those in the table: the caller has found it there. Both words are read as one: a word of which bit 0 is cleared at
// once would be read byte by byte.
fn entry_in(pdata: &[u8], i: usize) -> Entry
    requires { i < length pdata.now / 8 }
    ensures { result ≡ entry_at pdata.now i }
{
    let both = lent::word64_in(pdata, 8 * i);
    Entry {
        number: i,
        start: words::even((both % 4294967296) as u32),
        word: (both / 4294967296) as u32,
    }
}

// Whether each start in the table is greater than the one before (RULES 2.3). A word's start is at or below another's exactly if the word
// is at or below the other with bit 0 set, so the words are compared as they stand.
pub fn ascending(pdata: &[u8]) -> bool
    ensures { result ≡ ascending_of (starts pdata.now) }
{
    let n = records(pdata);
    let mut last = lent::word32(pdata, 0);
    for i in 1..n {
        let next = lent::word32_in(pdata, 8 * i);
        if next <= words::even(last) + 1 {
            return false;
        }
        last = next;
    }
    true
}

// The last record that starts at or below an RVA, by halving, in a table that ascends; words are compared as in `ascending`.
fn search(pdata: &[u8], rva: u32) -> Option<Entry>
    ensures { ascending_of (starts pdata.now) ≡ true → result ≡ last_up_to (entries pdata.now) rva }
{
    let top = words::even(rva) + 1;
    let mut low = 0;
    let mut high = records(pdata);
    while low < high {
        let mid = low + (high - low) / 2;
        if lent::word32_in(pdata, 8 * mid) <= top {
            low = mid + 1;
        } else {
            high = mid;
        }
    }
    if low == 0 {
        return None;
    }
    Some(entry_in(pdata, low - 1))
}

// What finding asks of the table alone: a walk asks it once.
pub fn check(pdata: &[u8]) -> Checked
    ensures { result ≡ checked_of pdata.now }
{
    Checked {
        fit: pdata.len() % 8 == 0,
        sorted: ascending(pdata),
    }
}

// Finding in a table that was checked, as a walk does for each frame: the tests of RULES 9.55 in order, and then the record or none.
pub fn find_in(
    checked: Checked,
    image: u32,
    pdata: &[u8],
    pc: u32,
) -> Result<Option<Entry>, Refusal>
    ensures { checked ≡ checked_of pdata.now → result ≡ find_of image pdata.now pc }
{
    if !checked.fit {
        return Err(Refusal::UnfitInput);
    }
    let at = words::even(pc);
    if at < image {
        return Err(Refusal::PcBelowBase);
    }
    if !checked.sorted {
        return Err(Refusal::StartsNotAscending);
    }
    Ok(search(pdata, at - image))
}

// Finding by an RVA: 1 for the length, 3, and then the last record that starts at or below it, or none.
pub fn find_rva(pdata: &[u8], rva: u32) -> Result<Option<Entry>, Refusal>
    ensures { result ≡ spec_find_rva pdata.now rva }
{
    let c = check(pdata);
    if !c.fit {
        return Err(Refusal::UnfitInput);
    }
    if !c.sorted {
        return Err(Refusal::StartsNotAscending);
    }
    Ok(search(pdata, rva))
}

// Finding by a pc (RULES 2.5).
pub fn find(image: u32, pdata: &[u8], pc: u32) -> Result<Option<Entry>, Refusal>
    ensures { result ≡ find_of image pdata.now pc }
{
    find_in(check(pdata), image, pdata, pc)
}
