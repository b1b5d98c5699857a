// Three cells tied together, by their numbers; a subset ties a and b, and its c names nothing.
// Kept: c stands beside the kind as it stands in the record of each kind, where a subset has a number too.
ghost use Rattle.std.specs.Prelude.{◌≡◌, true};
ghost use Rattle.bounds.specs.Scoped.{distinct};
ghost use Rattle.triples.specs.Triples.{read, rule_of, triple_rule, triple_laws, ExactOnBoards};

use bounds::scope::distinct;
use records::body::BodyKind;
use records::bytes::Spot;
use records::triples::{TripleKind, TripleRecord, Triples};
use rules::recorded::Recorded;

#[derive(Clone, Copy, PartialEq, Eq, Debug)]
pub struct Triple {
    pub kind: TripleKind,
    pub a: u16,
    pub b: u16,
    pub c: u16,
}

impl Recorded<'_> for Triple {
    ghost reads = { λ spot. triple_rule spot.bytes.now spot.place };

    ghost reads_lawful = { λ spot. triple_laws spot.bytes.now spot.place };

    fn read(spot: Spot<'_>) -> Option<Triple> {
        Triple::of(spot)
    }
}

impl Triple {
    // The triple whose record stands at a place of the file, if its kind is known.
    pub fn at(file: &[u8], place: u16) -> Option<Triple>
        ensures { result ≡ read file.now place }
    {
        Triple::of(Spot {
            bytes: file,
            place: usize::from(place),
        })
    }

    // The same at a spot.
    fn of(spot: Spot<'_>) -> Option<Triple>
        ensures { result ≡ read spot.entry.bytes.now spot.entry.place }
    {
        let TripleRecord { kind, a, b, c } = Triples::read(spot);
        let kind = TripleKind::try_from(kind).ok()?;
        Some(Triple { kind, a, b, c })
    }

    // Whether no cell is named twice: the narrowing of any board is then exact, the hull of its fillings that meet the triple.
    #[tactic(auto, using(bounds::proofs::Lifted::lifted_exact))]
    pub fn names_each_once(&self) -> bool
        ensures answer { result ≡ distinct (rule_of self.now).scope }
        ensures exact { result ≡ true → ExactOnBoards (rule_of self.now) }
    {
        distinct(self)
    }
}
