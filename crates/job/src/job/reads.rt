// The reading of a file.
ghost use Rattle.job.specs.Jobs.{Means, Reads};

use super::{Job, MOST_RULES};
use crate::body::Body;
use crate::contents::Contents;
use crate::fault::JobFault;
use crate::tally::Tally;

impl<'f> Job<'f> {
    // A file that breaks a limit is refused by its number, at its place; every other file is read.
    pub fn read(file: &'f [u8]) -> Result<Job<'f>, JobFault>
        ensures reading { Reads file.now result }
        ensures meaning { Means file.now result }
    {
        Job::scan(file)
    }

    fn scan(file: &'f [u8]) -> Result<Job<'f>, JobFault>
        ensures { Reads file.now result }
    {
        let contents = Contents::read(file)?;
        let mut tally = Tally::default();
        let mut places = [0; MOST_RULES];
        for (_, entry) in contents.entries() {
            let body = Body::of(contents.file, entry);
            // Kept: that the cast keeps the number is proved, where a try_from would add an error that cannot be.
            let start = entry.offset as u16;
            let end = body.walk(start, tally.cells, tally.totals, &mut places)?;
            tally = tally.with(body, start, end);
        }
        Ok(Job {
            file,
            tally,
            places,
        })
    }
}
