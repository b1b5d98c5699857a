// The contents of a job file: the number of its bodies, and an entry for each.
ghost use Rattle.std.specs.Prelude.{◌≡◌, ◌+◌, ◌*◌, ◌≤◌, length, Some, None, MatchResult, slice_index};
ghost use Rattle.job.specs.Contents.{misordered, misplaced, entries_from, contents_fault};
ghost use Rattle.job.specs.Faults.{of_contents};

use crate::entries::Entries;
use crate::entry::ENTRY_BYTES;
use crate::fault::ContentsFault;
use crate::file::File;

#[derive(Clone, Copy)]
pub struct Contents<'f> {
    pub file: File<'f>,
    count: u16,
    ghost few: { count ≤ 4 },
}

impl<'f> Contents<'f> {
    pub fn read(bytes: &'f [u8]) -> Result<Contents<'f>, ContentsFault>
        ensures { MatchResult result (λ c. (contents_fault bytes.now ≡ None) × (c.file.bytes.now ≡ bytes.now) × (c.count ≡ slice_index bytes.now 0)) (λ e. contents_fault bytes.now ≡ Some (of_contents e)) }
    {
        let file = File::of(bytes)?;
        let contents = Contents {
            file,
            count: file.counted()?,
        };
        contents.check_kinds()?;
        contents.check_layout()?;
        Ok(contents)
    }

    pub fn entries(self) -> Entries<'f>
        ensures { (result.file.now ≡ self.entry.file.bytes.now) × (result.numbers.start ≡ 0) × (result.numbers.end ≡ self.entry.count) }
    {
        Entries {
            file: self.file.bytes,
            numbers: 0..self.count,
        }
    }

    // The kinds rise from 1 to 4 at most.
    fn check_kinds(self) -> Result<(), ContentsFault>
        ensures { MatchResult result (λ _. misordered 1 1 1 (entries_from self.entry.count self.entry.file.bytes.now 1) ≡ None) (λ e. misordered 1 1 1 (entries_from self.entry.count self.entry.file.bytes.now 1) ≡ Some (of_contents e)) }
    {
        // Kept: kinds are compared by their numbers here, since what is read may be the number of none.
        let mut due = 1..=1;
        for (place, entry) in self.entries() {
            if !due.contains(&entry.kind) {
                return Err(ContentsFault::Kind { place });
            }
            due = entry.later_kinds();
        }
        Ok(())
    }

    // The bodies follow the contents and each other, and the last ends where the file does.
    fn check_layout(self) -> Result<(), ContentsFault>
        ensures { MatchResult result (λ _. misplaced (length self.entry.file.bytes.now) (1 + 9 * self.entry.count) 1 (entries_from self.entry.count self.entry.file.bytes.now 1) ≡ None) (λ e. misplaced (length self.entry.file.bytes.now) (1 + 9 * self.entry.count) 1 (entries_from self.entry.count self.entry.file.bytes.now 1) ≡ Some (of_contents e)) }
    {
        let all = self.file.bytes.len();
        let contents_end = 1 + ENTRY_BYTES * self.count;
        let mut start = usize::from(contents_end);
        for (place, entry) in self.entries() {
            let last = place + ENTRY_BYTES == contents_end;
            if !entry.follows(start, all, last) {
                return Err(ContentsFault::Layout { place });
            }
            start = entry.end();
        }
        Ok(())
    }
}
