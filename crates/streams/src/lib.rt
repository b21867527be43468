// Reports that follow one another in what a reader gives, each after its length (RULES 8.9). No contract says which bytes a read puts into
// a buffer; how many of them came, and that they lie in the buffer, it does. Of a read that failed nothing is kept but that it did.
#![tactic(auto)]

ghost use Rattle.std.specs.Prelude.{◌≡◌, ◌≤◌, length};
ghost use Rattle.streams.specs.Filled.{Fills, Passes, Follows, Stands};

use lent::word32;
use std::io::Read;

// How many bytes came, and whether a read failed before all that were asked for had come: both at once, so it is no Result.
#[derive(Clone, Copy)]
pub struct Filled {
    pub count: usize,
    pub failed: bool,
}

// What comes next (RULES 8.9 to 8.11): a report of so many bytes, at the buffer's start; one longer than the buffer, passed over; one
// inside which the input ended or a read failed (true); or nothing more, because the input ended or a read failed (true).
#[derive(Clone, Copy)]
pub enum Item {
    Report(usize),
    TooLong,
    Cut(bool),
    End(bool),
}

// Reads until the buffer is full, the input ends or a read fails.
pub fn fill<R: Read>(reader: &mut R, buf: &mut [u8]) -> Filled
    ensures { Fills result buf.new }
{
    let mut count = 0;
    while count < buf.len() {
        match reader.read(&mut buf[count..]) {
            Ok(0) => break,
            Ok(more) => count += more,
            Err(_) => return Filled {
                count,
                failed: true,
            },
        }
    }
    Filled {
        count,
        failed: false,
    }
}

// Reads so many bytes, or all up to the input's end or a read that fails, and keeps none. The buffer is the room for them.
fn skip<R: Read>(reader: &mut R, buf: &mut [u8], bytes: usize) -> Filled
    ensures { Passes result bytes }
{
    let mut count = 0;
    while count < bytes {
        let part = buf.len().min(bytes - count);
        match reader.read(&mut buf[..part]) {
            Ok(0) => break,
            Ok(some) => count += some,
            Err(_) => return Filled {
                count,
                failed: true,
            },
        }
    }
    Filled {
        count,
        failed: false,
    }
}

// The report of so many bytes that follows its length.
fn next_of<R: Read>(reader: &mut R, buf: &mut [u8], bytes: usize) -> Item
    ensures { Follows result bytes buf.new }
{
    if buf.len() < bytes {
        let passed = skip(reader, buf, bytes);
        if passed.count < bytes {
            return Item::Cut(passed.failed);
        }
        return Item::TooLong;
    }
    let filled = fill(reader, &mut buf[..bytes]);
    if filled.count < bytes {
        return Item::Cut(filled.failed);
    }
    Item::Report(bytes)
}

// The next report: a length of 32 bits, little-endian, then so many bytes.
pub fn next<R: Read>(reader: &mut R, buf: &mut [u8]) -> Item
    ensures { Stands result buf.new }
{
    let mut word = [0u8; 4];
    let filled = fill(reader, &mut word);
    if filled.count == 0 {
        return Item::End(filled.failed);
    }
    if filled.count < 4 {
        return Item::Cut(filled.failed);
    }
    let bytes = word32(&word, 0);
    next_of(reader, buf, bytes as usize)
}
