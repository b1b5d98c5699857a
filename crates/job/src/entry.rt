// An entry of the contents.
ghost use Rattle.std.specs.Prelude.{◌≡◌, ◌+◌, ◌≤◌, false, ◌==◌, ◌&&◌, nat_le, if◌then◌else◌};
ghost use Rattle.std.specs.Range.{range_inclusive_start, range_inclusive_end, range_inclusive_exhausted};
ghost use Rattle.job.specs.Contents.{entry_at};

use crate::file::reach::MOST_BODIES;
use records::bytes::Spot;
use std::ops::RangeInclusive;

// The bytes of an entry.
pub const ENTRY_BYTES: u16 = 9;

#[derive(Clone, Copy)]
pub struct Entry {
    // Kept: the byte as written, since an entry is read before its kind is known to be one.
    pub kind: u8,
    pub offset: u32,
    pub size: u32,
}

impl Entry {
    pub fn at(spot: Spot<'_>) -> Entry
        ensures { result ≡ entry_at spot.entry.bytes.now spot.entry.place }
    {
        Entry {
            kind: spot.u8(0),
            offset: spot.u32(1),
            size: spot.u32(5),
        }
    }

    // Where its body begins.
    // Kept: no From takes a u32 to a usize, here and below.
    pub fn start(self) -> usize
        ensures { result ≡ self.offset }
    {
        self.offset as usize
    }

    // Where it ends.
    pub fn end(self) -> usize
        ensures { result ≡ self.offset + self.size }
    {
        self.start() + self.size as usize
    }

    // The kinds that may come after it.
    pub fn later_kinds(self) -> RangeInclusive<u8>
        requires { self.kind ≤ 4 }
        ensures { (range_inclusive_start result ≡ self.kind + 1) × (range_inclusive_end result ≡ 4) × (range_inclusive_exhausted result ≡ false) }
    {
        self.kind + 1..=MOST_BODIES
    }

    // Whether its body begins at `start` and ends within a file of so many bytes, at its end if it is the last.
    pub fn follows(self, start: usize, all: usize, last: bool) -> bool
        ensures { result ≡ (self.offset == start && (if last then self.offset + self.size == all else nat_le (self.offset + self.size) all)) }
    {
        let end = self.end();
        self.start() == start && end <= all && (!last || end == all)
    }
}
