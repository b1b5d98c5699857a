// What can be wrong with a job file. A fault below is carried whole.
ghost use Rattle.std.specs.Prelude.{◌≡◌};
ghost use Rattle.job.specs.Faults.{of_contents, of_job};
ghost use Rattle.job.specs.declared.fault.ContentsFault.TheVariants.{Bytes};
ghost use Rattle.job.specs.declared.fault.JobFault.TheVariants.{Contents, Record};

use records::fault::{ByteFault, RecordFault};
use records::refused::Refused;

#[derive(Clone, Copy, PartialEq, Eq, Debug)]
pub enum ContentsFault {
    // The file has more than 65,535 bytes.
    Long,
    Bytes(ByteFault),
    // The number of entries is not 1 to 4.
    Count,
    // An entry's kind is none or is out of order.
    Kind { place: u16 },
    // An entry's body is not where it has to be.
    Layout { place: u16 },
}

#[derive(Clone, Copy, PartialEq, Eq, Debug)]
pub enum JobFault {
    Contents(ContentsFault),
    Record(RecordFault),
}

impl From<ContentsFault> for Refused {
    ghost from_gives = { λ fault r. r ≡ of_contents fault };

    fn from(fault: ContentsFault) -> Refused {
        let (number, place) = match fault {
            ContentsFault::Long => (1, 65535),
            ContentsFault::Bytes(fault) => return fault.into(),
            ContentsFault::Count => (3, 0),
            ContentsFault::Kind { place } => (3, place),
            ContentsFault::Layout { place } => (4, place),
        };
        Refused {
            number,
            kind: 0,
            place,
        }
    }
}

impl From<JobFault> for Refused {
    ghost from_gives = { λ fault r. r ≡ of_job fault };

    fn from(fault: JobFault) -> Refused {
        match fault {
            JobFault::Contents(fault) => fault.into(),
            JobFault::Record(fault) => fault.into(),
        }
    }
}

// Kept: public, for a caller that wants one number of the fault; all come from the conversion above.
impl JobFault {
    pub fn refused(self) -> Refused
        ensures { result ≡ of_job self }
    {
        self.into()
    }

    // The number of the line that the file breaks.
    pub fn number(self) -> u8
        ensures { result ≡ (of_job self).number }
    {
        self.refused().number
    }

    // The kind of the body that the fault lies in, or 0 outside bodies.
    pub fn kind(self) -> u8
        ensures { result ≡ (of_job self).kind }
    {
        self.refused().kind
    }

    pub fn place(self) -> u16
        ensures { result ≡ (of_job self).place }
    {
        self.refused().place
    }
}

impl From<ByteFault> for ContentsFault {
    ghost from_gives = { λ b r. r ≡ Bytes b };

    fn from(fault: ByteFault) -> ContentsFault {
        Self::Bytes(fault)
    }
}

impl From<ContentsFault> for JobFault {
    ghost from_gives = { λ b r. r ≡ Contents b };

    fn from(fault: ContentsFault) -> JobFault {
        Self::Contents(fault)
    }
}

impl From<RecordFault> for JobFault {
    ghost from_gives = { λ b r. r ≡ Record b };

    fn from(fault: RecordFault) -> JobFault {
        Self::Record(fault)
    }
}
