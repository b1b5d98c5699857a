// What a refused job is told: the number of the line that it breaks, the kind of the body that the fault lies in,
// 0 outside bodies, and its place in the file.
use std::fmt;

// Kept: numbers and no enums, since the format prints them, with 0 for no kind; what broke is typed in a job's fault, and a board's.
#[derive(Clone, Copy, PartialEq, Eq, Debug)]
pub struct Refused {
    pub number: u8,
    pub kind: u8,
    pub place: u16,
}

impl fmt::Display for Refused {
    fn fmt<W: fmt::Write>(&self, f: &mut fmt::Formatter<W>) -> fmt::Result {
        let number = self.number;
        let kind = self.kind;
        let place = self.place;
        write!(f, "refused {number} {kind} {place}")
    }
}
