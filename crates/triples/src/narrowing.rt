// The exact narrowing of the rows that a triple of each kind ties together; None where no filling of them meets it.
ghost use Rattle.std.specs.Prelude.{◌≡◌, ◌+◌, ◌≤◌, min, nat_lt, if◌then◌else◌};
ghost use Rattle.bounds.specs.Cells.{common};
ghost use Rattle.bounds.specs.Exact.{exact};
ghost use Rattle.rules.specs.Answers.{board_of};
ghost use Rattle.triples.specs.Triples.{relation};

use bounds::row::Row;
use records::triples::TripleKind;
use rules::arrays::if_sound;

// The low of one of two rows, whose greater lies in `whole`: the low of that where the other cannot reach it.
fn least(part: Row, other: Row, whole: Row) -> u16
    ensures { result ≡ (if nat_lt other.high whole.low then whole.low else part.low) }
{
    if other.high < whole.low {
        whole.low
    } else {
        part.low
    }
}

// The third is the greater of the first two: where one of them cannot be it, the other must.
#[tactic(auto, using(crate::proofs::Closed::union_array))]
pub fn union(rows: [Row; 3]) -> Option<[Row; 3]>
    ensures { board_of result ≡ exact (relation TripleKind.Union) rows }
{
    let [a, b, c] = rows;
    let whole = c.common(a.low.max(b.low), a.high.max(b.high));
    if_sound([
        a.common(least(a, b, whole), whole.high),
        b.common(least(b, a, whole), whole.high),
        whole,
    ])
}

// The high of one of two rows, whose lesser lies in `whole`: the high of that where the other stays above it.
fn most(part: Row, other: Row, whole: Row) -> u16
    ensures { result ≡ (if nat_lt whole.high other.low then whole.high else part.high) }
{
    if whole.high < other.low {
        whole.high
    } else {
        part.high
    }
}

// The third is the lesser of the first two.
// Kept: a union with the order reversed, where a row turned round and back would say less plainly which bound moves.
#[tactic(auto, using(crate::proofs::Closed::intersection_array))]
pub fn intersection(rows: [Row; 3]) -> Option<[Row; 3]>
    ensures { board_of result ≡ exact (relation TripleKind.Intersection) rows }
{
    let [a, b, c] = rows;
    let whole = c.common(a.low.min(b.low), a.high.min(b.high));
    if_sound([
        a.common(whole.low, most(a, b, whole)),
        b.common(whole.low, most(b, a, whole)),
        whole,
    ])
}

// The counts of a row that two others can add up to. A sum may stop at the greatest number: no count is above it.
fn summed(row: Row, a: Row, b: Row) -> Row
    ensures value { result ≡ common row (min (a.low + b.low) 65535) (min (a.high + b.high) 65535) }
    ensures room { row.high ≤ 65535 }
{
    row.common(a.low.saturating_add(b.low), a.high.saturating_add(b.high))
}

// The third is the sum of the first two.
#[tactic(auto, using(crate::proofs::Closed::plus_array))]
pub fn union_plus(rows: [Row; 3]) -> Option<[Row; 3]>
    ensures { board_of result ≡ exact (relation TripleKind.UnionPlus) rows }
{
    let [a, b, c] = rows;
    if_sound([
        a.common(c.low.saturating_sub(b.high), c.high.saturating_sub(b.low)),
        b.common(c.low.saturating_sub(a.high), c.high.saturating_sub(a.low)),
        summed(c, a, b),
    ])
}

// The first is at most the second.
#[tactic(auto, using(crate::proofs::Closed::subset_array))]
pub fn subset(rows: [Row; 2]) -> Option<[Row; 2]>
    ensures { board_of result ≡ exact (relation TripleKind.Subset) rows }
{
    let [a, b] = rows;
    if_sound([a.common(0, b.high), b.common(a.low, b.high)])
}
