// Two triples worked out: from the definition, from their records on a board of four cells, and by the call.
ghost use Rattle.std.specs.Prelude.{◌≡◌};
ghost use Rattle.rules.specs.Answers.{board_of};
ghost use Rattle.triples.specs.Worked.{union_after, plus_after, UnionDefined, UnionRecorded, PlusDefined, PlusRecorded};

use crate::narrowing::{union, union_plus};
use bounds::row::Row;

// The greater of 0..5 and 0..2 is one of 3..9: so it is the first, and at most 5.
pub fn union_worked() -> Option<[Row; 3]>
    ensures defined { UnionDefined }
    ensures recorded { UnionRecorded }
    ensures called { board_of result ≡ union_after }
{
    union([
        Row { low: 0, high: 5 },
        Row { low: 0, high: 2 },
        Row { low: 3, high: 9 },
    ])
}

// One of 0..3 and 2 sum to one of 4..9: so the first is 2 or 3.
pub fn union_plus_worked() -> Option<[Row; 3]>
    ensures defined { PlusDefined }
    ensures recorded { PlusRecorded }
    ensures called { board_of result ≡ plus_after }
{
    union_plus([
        Row { low: 0, high: 3 },
        Row { low: 2, high: 2 },
        Row { low: 4, high: 9 },
    ])
}
