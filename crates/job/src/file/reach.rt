// How far a file reaches.
ghost use Rattle.std.specs.Prelude.{◌≡◌, ◌+◌, ◌*◌, ◌<◌, ◌≤◌, length, Some, MatchResult, slice_index};
ghost use Rattle.records.specs.Refusals.{line, of_bytes};
ghost use Rattle.job.specs.Contents.{short, miscounted, first};
ghost use Rattle.job.specs.Faults.{of_contents};

use super::File;
use crate::entry::ENTRY_BYTES;
use crate::fault::ContentsFault;
use records::fault::ByteFault;

const MOST_BYTES: usize = 65535;

// One of each kind.
pub const MOST_BODIES: u8 = 4;

impl<'f> File<'f> {
    pub fn of(bytes: &'f [u8]) -> Result<File<'f>, ContentsFault>
        ensures { MatchResult result (λ file. file.bytes.now ≡ bytes.now) (λ e. (65535 < length bytes.now) × (of_contents e ≡ line 1 0 65535)) }
    {
        if bytes.len() > MOST_BYTES {
            return Err(ContentsFault::Long);
        }
        Ok(File { bytes })
    }

    // Whether it has so many bytes.
    fn reaches(self, end: usize) -> Result<(), ByteFault>
        ensures { MatchResult result (λ _. end ≤ length self.entry.bytes.now) (λ e. (length self.entry.bytes.now + 1 ≤ end) × (of_bytes e ≡ line 2 0 (length self.entry.bytes.now))) }
    {
        let length = self.bytes.len();
        if end <= length {
            Ok(())
        } else {
            // Kept: that the cast keeps the number is proved, where a try_from would add an error that cannot be.
            Err(ByteFault::Contents { end: length as u16 })
        }
    }

    // The number of entries.
    pub fn counted(self) -> Result<u16, ContentsFault>
        ensures { MatchResult result (λ n. (n ≡ slice_index self.entry.bytes.now 0) × (1 ≤ n) × (n ≤ 4) × (1 + 9 * n ≤ length self.entry.bytes.now)) (λ e. first (short self.entry.bytes.now) (miscounted self.entry.bytes.now) ≡ Some (of_contents e)) }
    {
        self.reaches(1)?;
        let count = self.bytes[0];
        if !(1..=MOST_BODIES).contains(&count) {
            return Err(ContentsFault::Count);
        }
        self.reaches(1 + usize::from(ENTRY_BYTES) * usize::from(count))?;
        Ok(u16::from(count))
    }
}
