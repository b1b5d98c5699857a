// What can be wrong below the level of a job: too few bytes, and a record that breaks a limit.
ghost use Rattle.std.specs.Prelude.{◌≡◌};
ghost use Rattle.records.specs.Refusals.{of_bytes, of_record};
ghost use Rattle.records.specs.declared.fault.RecordFault.TheVariants.{Bytes};

use crate::kind::Kind;
use crate::refused::Refused;

#[derive(Clone, Copy, PartialEq, Eq, Debug)]
pub enum ByteFault {
    // The contents pass the file's end.
    Contents { end: u16 },
    // A record, with its count as written, passes the end of its body.
    Record { kind: Kind, place: u16 },
}

#[derive(Clone, Copy, PartialEq, Eq, Debug)]
pub enum RecordFault {
    Bytes(ByteFault),
    // A field breaks a limit or names no cell, or there are too many records.
    Number { kind: Kind, place: u16 },
    // A rule names one cell twice.
    Twice { kind: Kind, place: u16 },
}

impl From<ByteFault> for Refused {
    ghost from_gives = { λ fault r. r ≡ of_bytes fault };

    fn from(fault: ByteFault) -> Refused {
        match fault {
            ByteFault::Contents { end } => Refused {
                number: 2,
                kind: 0,
                place: end,
            },
            ByteFault::Record { kind, place } => Refused {
                number: 5,
                kind: kind.into(),
                place,
            },
        }
    }
}

impl From<RecordFault> for Refused {
    ghost from_gives = { λ fault r. r ≡ of_record fault };

    fn from(fault: RecordFault) -> Refused {
        match fault {
            RecordFault::Bytes(fault) => fault.into(),
            RecordFault::Number { kind, place } => Refused {
                number: 6,
                kind: kind.into(),
                place,
            },
            RecordFault::Twice { kind, place } => Refused {
                number: 7,
                kind: kind.into(),
                place,
            },
        }
    }
}

impl From<ByteFault> for RecordFault {
    ghost from_gives = { λ b r. r ≡ Bytes b };

    fn from(fault: ByteFault) -> RecordFault {
        Self::Bytes(fault)
    }
}
