// The bounds that a linear constraint leaves its cells.
ghost use Rattle.std.specs.Prelude.{◌≡◌, ◌+◌, ◌-◌, ◌*◌, ◌^◌, ◌<◌, ◌≤◌, ◌/◌, min, max, ◌⊎◌, [], pos, if◌then◌else◌, MatchOption};
ghost use lib.Signed.{lt_z};
ghost use Rattle.linear.specs.Linear.{over, limits, bounded};

use crate::division::div_up;
use bounds::row::Row;

// The floor and the ceiling of a sum, and what its cells weigh at their lows and at their highs.
#[derive(Clone, Copy)]
pub struct Limits {
    pub floor: u64,
    pub ceiling: u64,
    pub least: u64,
    pub most: u64,
}

// Limits that the cells may meet: at their highs they weigh enough, at their lows not too much.
#[derive(Clone, Copy)]
pub struct Open {
    sum: Limits,
    ghost reached: { sum.floor ≤ sum.most },
    ghost kept: { sum.least ≤ sum.ceiling },
    ghost small: { sum.most < 2 ^ 63 },
}

// The fewest copies of a cell with which the floor is reached, where the other cells weigh so much.
fn needed(floor: u64, others: u64, weight: u32) -> u64
    requires floor { floor < 2 ^ 63 }
    requires others { others < 2 ^ 63 }
    requires weight { 0 < weight }
    ensures { result ≡ over (floor - others) weight }
{
    // Kept: a rule of the project: a dividend below zero is divided by a function of its own, over signed numbers.
    not_below_zero(div_up(floor as i64 - others as i64, weight))
}

// Kept: that the cast keeps the number is proved, where a try_from would add an error that cannot be.
fn not_below_zero(copies: i64) -> u64
    ensures { pos result ≡ (if lt_z copies (pos 0) then pos 0 else copies) }
{
    copies.max(0) as u64
}

// The low of a cell, raised to the fewest copies with which the floor is reached.
// Kept: a low with which it is reached is not divided for, since few move; so with the high below.
fn raised(row: Row, floor: u64, others: u64, weight: u32) -> u16
    requires weight { 0 < weight }
    requires floor { floor < 2 ^ 63 }
    requires others { others < 2 ^ 63 }
    requires reached { floor ≤ others + weight * row.high }
    ensures { result ≡ max row.low (over (floor - others) weight) }
{
    if floor <= others + u64::from(weight) * u64::from(row.low) {
        return row.low;
    }
    // Kept: that the casts keep each number is proved, where a try_from would add an error that cannot be.
    needed(floor, others, weight) as u16
}

// The high of a cell, lowered to the most copies that weigh no more than the others leave.
fn lowered(high: u16, room: u64, weight: u32) -> u16
    requires { 0 < weight }
    ensures { result ≡ min high (room / weight) }
{
    if u64::from(weight) * u64::from(high) <= room {
        return high;
    }
    (room / u64::from(weight)) as u16
}

// Both, where one of them may move.
// Kept: not inlined, so that its divisions take no registers from the loops over cells, most of which stay.
#[inline(never)]
fn moved(row: Row, weight: u32, floor: u64, others: u64, room: u64) -> Row
    requires weight { 0 < weight }
    requires floor { floor < 2 ^ 63 }
    requires others { others < 2 ^ 63 }
    requires reached { floor ≤ others + weight * row.high }
    ensures low { result.low ≡ max row.low (over (floor - others) weight) }
    ensures high { result.high ≡ min row.high (room / weight) }
{
    Row {
        low: raised(row, floor, others, weight),
        high: lowered(row.high, room, weight),
    }
}

impl Limits {
    pub fn from_floor_to_ceiling(floor: u64, ceiling: u64) -> Limits
        ensures { result ≡ limits [] floor ceiling [] }
    {
        Limits {
            floor,
            ceiling,
            least: 0,
            most: 0,
        }
    }

    // One more cell weighed.
    pub fn weigh(self, weight: u32, row: Row) -> Limits
        requires least { self.least < 2 ^ 62 }
        requires most { self.most < 2 ^ 62 }
        ensures floor { result.floor ≡ self.floor }
        ensures ceiling { result.ceiling ≡ self.ceiling }
        ensures least { result.least ≡ self.least + weight * row.low }
        ensures most { result.most ≡ self.most + weight * row.high }
        ensures light { (result.least < self.least + 2 ^ 48) × (result.most < self.most + 2 ^ 48) }
    {
        let weight = u64::from(weight);
        Limits {
            least: self.least + weight * u64::from(row.low),
            most: self.most + weight * u64::from(row.high),
            ..self
        }
    }

    // None if no counts within the bounds can meet them.
    pub fn open(self) -> Option<Open>
        requires { self.most < 2 ^ 63 }
        ensures { MatchOption result ((self.ceiling < self.least) ⊎ (self.most < self.floor)) (λ o. o.sum ≡ self) }
    {
        if self.least > self.ceiling || self.most < self.floor {
            None
        } else {
            Some(Open { sum: self })
        }
    }
}

impl Open {
    // The bounds left to a cell of this weight, which is one of those weighed.
    #[tactic(auto, using(crate::proofs::Slack::bounded_stays))]
    pub fn bound(self, weight: u32, row: Row) -> Row
        requires weight { 0 < weight }
        requires low { weight * row.low ≤ self.sum.least }
        requires high { weight * row.high ≤ self.sum.most }
        ensures { result ≡ bounded self.sum weight row }
    {
        // Kept: most cells keep both bounds, which this tells of both at once.
        let spread = u64::from(weight) * u64::from(row.high.saturating_sub(row.low));
        if spread <= self.slack() {
            return row;
        }
        let Limits {
            floor,
            ceiling,
            least,
            most,
        } = self.sum;
        let others_least = least - u64::from(weight) * u64::from(row.low);
        let others_most = most - u64::from(weight) * u64::from(row.high);
        moved(row, weight, floor, others_most, ceiling - others_least)
    }

    // How much heavier a cell may be at its high than at its low where its bounds stay.
    fn slack(self) -> u64
        ensures { result ≡ min (self.sum.ceiling - self.sum.least) (self.sum.most - self.sum.floor) }
    {
        (self.sum.ceiling - self.sum.least).min(self.sum.most - self.sum.floor)
    }
}
