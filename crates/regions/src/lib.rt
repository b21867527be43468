// The guarded regions of an .xdata record (RULES 2.14): the table behind the handler word. It knows no registers and no pc.
#![tactic(auto)]

ghost use Rattle.std.specs.Prelude.{◌≡◌, ◌+◌, ◌-◌, ◌≤◌, length, IfOk};
ghost use Rattle.lent.specs.Lent.{lent};
ghost use Rattle.regions.specs.Region.{region_from, region_in, regions_from, upright as upright_of, overlaps as overlaps_of, cross as cross_of, clear, sound as sound_of};
ghost use Rattle.regions.specs.declared.RegionRefusal.TheVariants.{Record};
ghost use Rattle.regions.specs.Table.{region_number, table_lent as spec_table_lent};
ghost use Rattle.regions.specs.AsCoded.Table.{sound_table as spec_sound_table, table_read as spec_table_read, table_after as spec_table_after, table_of, regions_given as spec_regions_given};

use words::Refusal;

// No table has more (RULES 9.15).
const MOST_REGIONS: u32 = 64;

// A guarded region: its number in the table, from 0, and its four words.
#[derive(Clone, Copy)]
pub struct Region {
    pub number: usize,
    pub begin: u32,
    pub end: u32,
    pub handler: u32,
    pub target: u32,
}

// Why a record's regions are refused: the record is, the table is not all lent or has too many (15), or a region is not upright or two cross
// (16).
#[derive(Clone, Copy)]
pub enum RegionRefusal {
    Record(Refusal),
    TableOutside,
    Crossed,
}

impl From<Refusal> for RegionRefusal {
    ghost from_gives = { λ r e. e ≡ Record r };

    fn from(r: Refusal) -> RegionRefusal {
        RegionRefusal::Record(r)
    }
}

// The regions of a table: where the first one begins in the .xdata, and how many there are.
#[derive(Clone, Copy)]
pub struct Regions {
    pub first: usize,
    pub count: usize,
}

// The number of a refusal (RULES 9).
pub fn number(r: RegionRefusal) -> u32
    ensures { result ≡ region_number r }
{
    match r {
        RegionRefusal::Record(why) => words::number(why),
        RegionRefusal::TableOutside => 15,
        RegionRefusal::Crossed => 16,
    }
}

// The region whose four words are there, from a place on, as its caller has tested.
fn read_in(xdata: &[u8], at: usize, number: usize) -> Region
    requires { at + 16 ≤ length xdata.now }
    ensures { result ≡ region_from xdata.now at number }
{
    Region {
        number,
        begin: lent::word32_in(xdata, at),
        end: lent::word32_in(xdata, at + 4),
        handler: lent::word32_in(xdata, at + 8),
        target: lent::word32_in(xdata, at + 12),
    }
}

// The same, each word by itself: those that are not there are 0.
fn read_any(xdata: &[u8], at: usize, number: usize) -> Region
    requires { at ≤ 8589934592 }
    ensures { result ≡ region_from xdata.now at number }
{
    Region {
        number,
        begin: lent::word32(xdata, at),
        end: lent::word32(xdata, at + 4),
        handler: lent::word32(xdata, at + 8),
        target: lent::word32(xdata, at + 12),
    }
}

// The region of a number, where the first one begins at an offset; whoever takes it for one of a table has found the table lent. One test
// serves its four words.
pub fn read(xdata: &[u8], first: usize, k: u8) -> Region
    requires { first ≤ 4294967296 }
    ensures { result ≡ region_in xdata.now first k }
{
    let at = first + 16 * (k as usize);
    if at + 16 <= xdata.len() {
        return read_in(xdata, at, k as usize);
    }
    read_any(xdata, at, k as usize)
}

// Begin is below end.
fn upright(r: Region) -> bool
    ensures { result ≡ upright_of r }
{
    r.begin < r.end
}

// The second begins inside the first and ends behind it.
fn overlaps(r: Region, s: Region) -> bool
    ensures { result ≡ overlaps_of r s }
{
    r.begin < s.begin && s.begin < r.end && r.end < s.end
}

fn cross(r: Region, s: Region) -> bool
    ensures { result ≡ cross_of r s }
{
    overlaps(r, s) || overlaps(s, r)
}

// Whether this region crosses none of a table's, from a number on.
fn clear_of(xdata: &[u8], first: usize, r: Region, from: usize, n: usize) -> bool
    requires { (first ≤ 4294967296) × (n ≤ 64) }
    ensures { result ≡ clear r (regions_from xdata.now first from (n - from)) }
{
    for k in from..n {
        if cross(r, read(xdata, first, k as u8)) {
            return false;
        }
    }
    true
}

// What 16 asks of a table of n regions. Each region is held against those behind it, so every two are.
fn sound(xdata: &[u8], first: usize, n: usize) -> bool
    requires { (first ≤ 4294967296) × (n ≤ 64) }
    ensures { result ≡ sound_of (regions_from xdata.now first 0 n) }
{
    for k in 0..n {
        let r = read(xdata, first, k as u8);
        if !upright(r) {
            return false;
        }
        if !clear_of(xdata, first, r, k + 1, n) {
            return false;
        }
    }
    true
}

// A table that is lent, if it is sound.
fn sound_table(xdata: &[u8], first: usize, n: usize) -> Result<Regions, RegionRefusal>
    requires { (first ≤ 4294967296) × (n ≤ 64) }
    ensures { result ≡ spec_sound_table xdata.now first n }
{
    if !sound(xdata, first, n) {
        return Err(RegionRefusal::Crossed);
    }
    Ok(Regions { first, count: n })
}

// What 15 asks. An .xdata that passes 1 is no longer than that, so an address in it has room for what is added to it.
fn table_lent(rva: u32, xdata: &[u8], at: u64) -> bool
    requires { length xdata.now ≤ 4294967296 }
    ensures { result ≡ spec_table_lent (lent rva xdata.now) at }
{
    if !lent::holds(rva, xdata, at, 4) {
        return false;
    }
    let n = lent::word_at(rva, xdata, at);
    n <= MOST_REGIONS && lent::holds(rva, xdata, at + 4, 16 * (n as u64))
}

// The table whose count word stands at an RVA.
fn table_read(rva: u32, xdata: &[u8], at: u64) -> Result<Regions, RegionRefusal>
    requires { length xdata.now ≤ 4294967296 }
    ensures { result ≡ spec_table_read (lent rva xdata.now) at }
{
    if !table_lent(rva, xdata, at) {
        return Err(RegionRefusal::TableOutside);
    }
    let n = lent::word_at(rva, xdata, at);
    sound_table(xdata, (at + 4 - (rva as u64)) as usize, n as usize)
}

// The table behind a record of so many bytes; there is none without a handler word.
fn table_after(rva: u32, xdata: &[u8], at: u32, bytes: u32) -> Result<Regions, RegionRefusal>
    requires { length xdata.now ≤ 4294967296 }
    ensures { result ≡ spec_table_after (lent rva xdata.now) at bytes }
{
    if xdata::handled(lent::word_at(rva, xdata, at as u64)) {
        return table_read(rva, xdata, (at as u64) + (bytes as u64));
    }
    Ok(Regions { first: 0, count: 0 })
}

// The table of the record at an RVA, of which bits 0-1 are cleared (RULES 2.14).
pub fn table(rva: u32, xdata: &[u8], at: u32) -> Result<Regions, RegionRefusal>
    ensures value { result ≡ table_of (lent rva xdata.now) at }
    ensures first_bound { IfOk result (λ t. (t.first ≤ 4294967296) × (t.count ≤ 64)) }
{
    let bytes = xdata::xdata_size(rva, xdata, at)?;
    table_after(rva, xdata, at - at % 4, bytes)
}

// What a table counts as where its numbers are owed: zeros if it is refused (RULES 9.57).
pub fn regions_given(table: Result<Regions, RegionRefusal>) -> Regions
    ensures { result ≡ spec_regions_given table }
{
    match table {
        Ok(regions) => regions,
        Err(_) => Regions { first: 0, count: 0 },
    }
}
