// The weights of a total's cells.
ghost use Rattle.std.specs.Prelude.{◌≡◌, ◌+◌, ◌*◌, ◌≤◌, length};
ghost use Rattle.records.specs.Records.{total_at};
ghost use Rattle.records.specs.Forms.{between, weighted};
ghost use Rattle.records.specs.Bytes.{number};

use super::Totals;
use crate::body::BodyKind;
use crate::bytes::Spot;

const MOST_WEIGHT: u32 = 1_000_000;

// Whether it is from 1 to a million.
fn is_weight(weight: u32) -> bool
    ensures { result ≡ between 1 1000000 weight }
{
    (1..=MOST_WEIGHT).contains(&weight)
}

// Whether each of the cells of the total has a weight from 1 to a million.
pub fn weights_keep(at: Spot<'_>) -> bool
    ensures { result ≡ weighted (total_at at.entry.bytes.now at.entry.place).terms }
{
    if at.holds(Totals::HEAD + 6 * usize::from(at.u16(0))) {
        whole_weights_keep(at)
    } else {
        cut_weights_keep(at)
    }
}

// Of a record that ends within the file, as each does that a job has.
fn whole_weights_keep(at: Spot<'_>) -> bool
    requires { at.place + (18 + 6 * number 2 at.bytes.now at.place) ≤ length at.bytes.now }
    ensures { result ≡ weighted (total_at at.entry.bytes.now at.entry.place).terms }
{
    for i in 0..usize::from(at.u16(0)) {
        if !is_weight(at.u32_inside(Totals::HEAD + 6 * i + 2)) {
            return false;
        }
    }
    true
}

fn cut_weights_keep(at: Spot<'_>) -> bool
    ensures { result ≡ weighted (total_at at.entry.bytes.now at.entry.place).terms }
{
    (0..Totals::arity(at)).all(|i| is_weight(Totals::weight(at, i)))
}
