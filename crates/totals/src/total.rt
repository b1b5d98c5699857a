// A total: the copies in its cells, each times its weight, add up to a sum from a floor to a ceiling.
ghost use Rattle.std.specs.Prelude.{◌≡◌, ◌+◌, ◌*◌, ◌≤◌, true, length, nat_le};
ghost use Rattle.records.specs.Bytes.{number};
ghost use Rattle.records.specs.Records.{total_at};
ghost use Rattle.records.specs.Forms.{total_limits};

use records::body::BodyKind;
use records::bytes::Spot;
use records::totals::Totals;

// The total whose record stands at a spot of the file.
// Kept: public, as a plate is, so that any spot makes one; that its record keeps its limits is asked where it is read as a rule, not of callers.
#[derive(Clone, Copy)]
pub struct Total<'f> {
    spot: Spot<'f>,
    // Whether the record ends within the file, as each does that a job has: its fields are then read with no more ado.
    whole: bool,
    // Whether it is known to keep its limits.
    kept: bool,
    ghost limits: { kept ≡ true → total_limits (total_at spot.bytes.now spot.place) ≡ true },
    ghost ends: { whole ≡ true → spot.place + (18 + 6 * number 2 spot.bytes.now spot.place) ≤ length spot.bytes.now },
}

impl<'f> Total<'f> {
    pub fn at(spot: Spot<'f>) -> Total<'f>
        ensures { result.spot ≡ spot.entry }
    {
        Total {
            spot,
            whole: is_whole(spot),
            kept: false,
        }
    }

    // One that is known to keep its limits.
    pub fn kept_at(spot: Spot<'f>) -> Total<'f>
        requires { total_limits (total_at spot.bytes.now spot.place) ≡ true }
        ensures { result.spot ≡ spot.entry }
    {
        Total {
            spot,
            whole: is_whole(spot),
            kept: true,
        }
    }
}

fn is_whole(spot: Spot<'_>) -> bool
    ensures { result ≡ nat_le (spot.entry.place + (18 + 6 * number 2 spot.entry.bytes.now spot.entry.place)) (length spot.entry.bytes.now) }
{
    spot.holds(Totals::HEAD + 6 * usize::from(spot.u16(0)))
}

mod narrowing;
pub mod rule;
