// Triples: union, intersection, union-plus of three cells, and subset of two.
ghost use Rattle.std.specs.Prelude.{◌≡◌, ◌+◌, ◌≤◌, Some, None, MatchResult};
ghost use Rattle.records.specs.Bytes.{number};
ghost use Rattle.records.specs.Forms.{triples_form};
ghost use Rattle.records.specs.Kinds.{triple_kind, tied};

use crate::body::BodyKind;
use crate::bytes::{Spot, byte_at};
use crate::kind::{Kind, Unknown};

const NO_CELL: u16 = 65535;

// How the third cell of a triple comes from the first two; a subset has no third.
#[derive(Clone, Copy, PartialEq, Eq, Debug)]
pub enum TripleKind {
    Union,
    Intersection,
    UnionPlus,
    Subset,
}

impl TryFrom<u16> for TripleKind {
    type Error = Unknown;

    ghost try_from_gives = { λ n r. MatchResult r (λ kind. triple_kind n ≡ Some kind) (λ _. triple_kind n ≡ None) };

    fn try_from(number: u16) -> Result<TripleKind, Unknown> {
        match number {
            1 => Ok(TripleKind::Union),
            2 => Ok(TripleKind::Intersection),
            3 => Ok(TripleKind::UnionPlus),
            4 => Ok(TripleKind::Subset),
            _ => Err(Unknown),
        }
    }
}

impl TripleKind {
    // How many cells a triple of the kind ties together.
    pub fn arity(self) -> usize
        ensures { result ≡ tied self }
    {
        match self {
            TripleKind::Subset => 2,
            _ => 3,
        }
    }
}

// Kept: the kind is the number as written, since a record is read before its fields are known to keep their limits.
#[derive(Clone, Copy)]
pub struct TripleRecord {
    pub kind: u16,
    pub a: u16,
    pub b: u16,
    pub c: u16,
}

pub struct Triples;

// One number of the record.
// Kept: by places in the file, which the compiler compares with the record's end once, and not within what is left of it.
fn field(at: Spot<'_>, offset: usize) -> u16
    requires { offset ≤ 6 }
    ensures { result ≡ number 2 at.entry.bytes.now (at.entry.place + offset) }
{
    if at.place >= at.bytes.len() {
        return 0;
    }
    let place = at.place + offset;
    u16::from(byte_at(at.bytes, place)) + 256 * u16::from(byte_at(at.bytes, place + 1))
}

impl BodyKind for Triples {
    type Record = TripleRecord;

    const HEAD: usize = 8;

    ghost form = { triples_form };

    ghost record_at = { λ b i. record { kind = number 2 b i; a = number 2 b (i + 2); b = number 2 b (i + 4); c = number 2 b (i + 6) } };

    fn kind() -> Kind {
        Kind::Triples
    }

    fn read(at: Spot<'_>) -> TripleRecord {
        TripleRecord {
            kind: field(at, 0),
            a: field(at, 2),
            b: field(at, 4),
            c: field(at, 6),
        }
    }

    fn size(_at: Spot<'_>) -> usize {
        Self::HEAD
    }

    fn keeps_limits(at: Spot<'_>) -> bool {
        match TripleKind::try_from(field(at, 0)) {
            Ok(TripleKind::Subset) => field(at, 6) == NO_CELL,
            Ok(_) => true,
            Err(Unknown) => false,
        }
    }

    #[tactic(auto, using(crate::proofs::Tied::names_tied, crate::proofs::Tied::names_three))]
    fn arity(at: Spot<'_>) -> usize {
        match TripleKind::try_from(field(at, 0)) {
            Ok(kind) => kind.arity(),
            Err(Unknown) => 3,
        }
    }

    // Kept: one number is read and not the record, which would be read anew for each cell.
    fn name(at: Spot<'_>, index: usize) -> u16 {
        match index {
            0 => field(at, 2),
            1 => field(at, 4),
            2 if Self::arity(at) == 3 => field(at, 6),
            _ => 0,
        }
    }
}
