// Where the records of each kind stand: the cells from a place of the file on, and of the table of rules first the
// plates, then the triples, then the totals.
ghost use Rattle.std.specs.Prelude.{◌≡◌, ◌≤◌};
ghost use Rattle.job.specs.Bodies.{body_form};
ghost use Rattle.job.specs.Tallies.{tallied};

use crate::body::Body;

#[derive(Clone, Copy, Default)]
pub struct Tally {
    // Where the first cell stands, and how many there are.
    pub start: u16,
    pub cells: u16,
    // Where the rules of each kind end in the table.
    pub plates: usize,
    pub triples: usize,
    pub totals: usize,
}

impl Tally {
    // With the records of one body more, which starts at a place of the file and ends at an index of the table.
    pub fn with(self, body: Body<'_>, start: u16, end: usize) -> Tally
        requires forward { self.totals ≤ end }
        requires few { end ≤ 1024 }
        ensures { result ≡ tallied self (body_form body.entry).kind start end }
    {
        // Kept: an arm for each kind, since each says by name which ends it moves.
        match body {
            Body::Cells(_) => Tally {
                start,
                // Kept: that the cast keeps the number is proved, where a try_from would add an error that cannot be.
                cells: (end - self.totals) as u16,
                ..self
            },
            Body::Plates(_) => Tally {
                plates: end,
                triples: end,
                totals: end,
                ..self
            },
            Body::Triples(_) => Tally {
                triples: end,
                totals: end,
                ..self
            },
            Body::Totals(_) => Tally {
                totals: end,
                ..self
            },
        }
    }
}
