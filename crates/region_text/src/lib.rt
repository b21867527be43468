// The outline of a record's regions as text, into a lent buffer (RULES 8.15, 8.16).
#![tactic(auto)]

ghost use Rattle.std.specs.Prelude.{[], ◌∷◌, ◌≡◌, ◌+◌, ◌<◌, ◌≤◌, length};
ghost use Rattle.lent.specs.Lent.{lent};
ghost use Rattle.regions.specs.Region.{regions_from};
ghost use Rattle.regions.specs.Table.{regions_of};
ghost use Rattle.nesting.specs.Outline.{outline};
ghost use Rattle.text.specs.Overlay.{Laid};
ghost use Rattle.region_text.specs.RegionText.{indent, mark, region_line, outline_text, refused_line, regions_text};
ghost use Rattle.region_text.specs.AsCoded.Part.{unindented, in_list as spec_in_list, PutRegion, PutList};

use regions::{Region, RegionRefusal};
use text::{put_addresses, put_byte, put_count, put_hex8, put_text};

// The place behind a list that was printed, in the buffer and in the order of regions.
#[derive(Clone, Copy)]
struct Put {
    at: usize,
    next: usize,
}

// Two spaces for each level.
fn put_indent(out: &mut [u8], at: usize, level: usize) -> usize
    requires { level ≤ 64 }
    ensures { Laid out.old at (indent level) result out.new }
{
    let spaces = [b' '; 128];
    put_text(out, at, &spaces[..2 * level])
}

// A region's mark: whether the RVA is in it.
fn mark_of(rva: u32, r: Region) -> u8
    ensures { result ∷ [] ≡ mark rva r }
{
    if r.begin <= rva && rva < r.end {
        b'*'
    } else {
        b'-'
    }
}

// A region's mark and its four words.
fn put_words(out: &mut [u8], at: usize, rva: u32, r: Region) -> usize
    ensures { Laid out.old at (unindented rva r) result out.new }
{
    let next = put_byte(out, at, mark_of(rva, r));
    let next = put_addresses(out, next, r.begin, r.end);
    let next = put_hex8(out, next, r.handler);
    let next = put_byte(out, next, b' ');
    let next = put_hex8(out, next, r.target);
    put_byte(out, next, b'\n')
}

// A region's line.
fn put_line(out: &mut [u8], at: usize, level: usize, rva: u32, r: Region) -> usize
    requires { level ≤ 64 }
    ensures { Laid out.old at (region_line level rva r) result out.new }
{
    let next = put_indent(out, at, level);
    put_words(out, next, rva, r)
}

// Whether a region is in a list: the outermost one, or that of the regions inside a range.
fn in_list(top: bool, low: u32, high: u32, r: Region) -> bool
    ensures { result ≡ spec_in_list top low high r }
{
    top || (low <= r.begin && r.end <= high)
}

// A region prints itself and then the list of its inner regions, one level further in.
#[cycle(put_list_put_region)]
fn put_region(
    out: &mut [u8],
    at: usize,
    xdata: &[u8],
    first: usize,
    order: &[u8],
    k: usize,
    level: usize,
    rva: u32,
) -> Put
    requires { (first ≤ 4294967296) × (length order.now ≤ 64) × (k < length order.now) × (level ≤ k + 1) }
    ensures { PutRegion xdata.now first order.now k level rva out.old at result out.new }
{
    let r = regions::read(xdata, first, order[k]);
    let next = put_line(out, at, level, rva, r);
    put_list(
        out,
        next,
        xdata,
        first,
        order,
        k + 1,
        false,
        r.begin,
        r.end,
        level + 1,
        rva,
    )
}

// A list prints its regions: those in front of the order that it holds.
#[cycle(put_list_put_region)]
fn put_list(
    out: &mut [u8],
    at: usize,
    xdata: &[u8],
    first: usize,
    order: &[u8],
    k: usize,
    top: bool,
    low: u32,
    high: u32,
    level: usize,
    rva: u32,
) -> Put
    requires { (first ≤ 4294967296) × (length order.now ≤ 64) × (k ≤ length order.now) × (level ≤ k + 1) }
    ensures { PutList xdata.now first order.now k top low high level rva out.old at result out.new }
{
    if k < order.len() {
        let r = regions::read(xdata, first, order[k]);
        if in_list(top, low, high, r) {
            let p = put_region(out, at, xdata, first, order, k, level, rva);
            return put_list(
                out, p.at, xdata, first, order, p.next, top, low, high, level, rva,
            );
        }
    }
    Put { at, next: k }
}

// The outline of a table's regions.
fn put_table(out: &mut [u8], at: usize, xdata: &[u8], first: usize, count: usize, rva: u32) -> usize
    requires { (first ≤ 4294967296) × (count ≤ 64) }
    ensures { Laid out.old at (outline_text 1 rva (outline (regions_from xdata.now first 0 count))) result out.new }
{
    let mut order = [0u8; 64];
    nesting::order(xdata, first, &mut order[..count]);
    let p = put_list(
        out,
        at,
        xdata,
        first,
        &order[..count],
        0,
        true,
        0,
        0,
        1,
        rva,
    );
    p.at
}

// A refused table's line.
fn put_refused(out: &mut [u8], at: usize, r: RegionRefusal) -> usize
    ensures { Laid out.old at (refused_line r) result out.new }
{
    let number = regions::number(r);
    let next = put_count(out, at, b"  refused ", number as u64);
    put_byte(out, next, b'\n')
}

// The outline of the regions of the .xdata record that word 1 of a .pdata record leads to, for the RVA of a pc; or the line of a refusal.
pub fn put_regions(out: &mut [u8], at: usize, rva: u32, xdata: &[u8], word: u32, pc: u32) -> usize
    ensures { Laid out.old at (regions_text pc (regions_of (lent rva xdata.now) word)) result out.new }
{
    match regions::table(rva, xdata, word) {
        Ok(t) => put_table(out, at, xdata, t.first, t.count, pc),
        Err(r) => put_refused(out, at, r),
    }
}
