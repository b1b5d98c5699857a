// The entries of the contents, each with its place in the file.
ghost use Rattle.std.specs.Prelude.{◌≡◌, ◌+◌, ◌-◌, ◌*◌, ◌<◌, ◌≤◌, MatchOption};
ghost use Rattle.std.specs.Iterator.{at_most};
ghost use Rattle.job.specs.Contents.{entry_at};

use crate::entry::{ENTRY_BYTES, Entry};
use records::bytes::Spot;
use std::ops::Range;

#[derive(Drop)]
pub struct Entries<'f> {
    pub file: &'f [u8],
    // The numbers of those to come.
    pub numbers: Range<u16>,
    ghost few: { numbers.end ≤ 4 },
}

impl Iterator for Entries<'_> {
    type Item = (u16, Entry);

    ghost next_gives = { λ s r t. MatchOption r (s.numbers.end ≤ s.numbers.start) (λ x. (s.numbers.start < s.numbers.end) × (x.0 ≡ 1 + 9 * s.numbers.start) × (x.1 ≡ entry_at s.file.now (1 + 9 * s.numbers.start)) × (t.file ≡ s.file) × (t.numbers.start ≡ s.numbers.start + 1) × (t.numbers.end ≡ s.numbers.end)) };

    ghost remaining = { λ s. at_most (s.numbers.end - s.numbers.start) };

    fn next(&mut self) -> Option<(u16, Entry)> {
        let place = 1 + ENTRY_BYTES * self.numbers.next()?;
        let spot = Spot {
            bytes: self.file,
            place: usize::from(place),
        };
        Some((place, Entry::at(spot)))
    }
}
