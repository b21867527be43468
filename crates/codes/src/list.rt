// Lists of registers, of 16 bits: bit k stands for rk, bit 14 for LR. Bits 13 and 15 stay clear, since no code names SP, and PC is coded as LR
// (RULES 4.9); so a list is what the ARM manual calls `registers` in the push that a pop undoes. A list is a sum of ranges, bits of a code
// and LR, which name no register twice: a packed word that would is refused (RULES 4.5). docs/POPS.md shows the line that makes each list,
// and the lines that load one.
ghost use Rattle.std.specs.Prelude.{◌≡◌, ◌<◌, leb, if◌then◌else◌};
ghost use Rattle.codes.specs.Table.{range as range_of, from_r4 as spec_from_r4, lr_if as spec_lr_if};

// ra to rb, where b is at most 12, so that SP and PC are in no range; no register if it is more, or below a.
pub fn range(a: u32, b: u32) -> u32
    ensures { (result ≡ (if leb b 12 then range_of a b else 0)) × (result < 8192) }
{
    if a <= b && b <= 12 {
        return (1 << (b + 1)) - (1 << a);
    }
    0
}

// r4 to rX for X from 4 to 11, and no register for others.
pub fn from_r4(x: u32) -> u32
    ensures { (result ≡ spec_from_r4 x) × (result < 4096) }
{
    if 4 <= x && x <= 11 {
        return range(4, x);
    }
    0
}

// LR, if it is listed.
pub fn lr_if(listed: bool) -> u32
    ensures { result ≡ spec_lr_if (if listed then 1 else 0) }
{
    if listed {
        return 16384;
    }
    0
}
