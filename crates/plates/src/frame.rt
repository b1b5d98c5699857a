// The narrowing of a plate, in closed form.
ghost use Rattle.std.specs.Prelude.{◌≡◌, ℕ, ◌+◌, ◌-◌, ◌*◌, ◌<◌, ◌≤◌, length};
ghost use Rattle.plates.specs.Form.{seek, slots_of, variety_of, low_of, high_of, count_of};
ghost use Rattle.plates.specs.Work.{Admitted, Light, Concave, Summed, Topped, gap, sum_at, First, Framed, Spanned, Wrote, room_for, frame_with, Wide, Widened, the_frame, widths_kept, Kept};

use bounds::row::Row;
use std::marker::Model;

// A count is certain if its low is above 0, else optional if its high is.
#[derive(Clone, Copy)]
struct Sums {
    certain: u32,
    optional: u32,
    // of the lows, and of the highs of the certain counts
    lows: u32,
    base: u32,
}

// How far the bounds of the certain counts lie apart at most, and the optional ones from 0.
#[derive(Clone, Copy)]
pub struct Widths {
    certain: u32,
    optional: u32,
}

// What the new bounds are made of.
#[derive(Drop)]
pub struct Frame {
    floor: u32,
    ceiling: u32,
    certain: u32,
    optional: u32,
    lows: u32,
    // how many optional counts can be present
    fewest: u32,
    most: u32,
    // the largest sum of the counts, with one fewer than the fewest, with the most, with one more
    under: u32,
    at: u32,
    over: u32,
}

impl Model for Frame {
    ghost use Rattle.plates.specs.Form.{Frame};

    ghost Value = { Frame };

    ghost use Rattle.plates.specs.Work.{numbers, Small};

    ghost view = { numbers };

    ghost invariant = { λ f. Small (numbers f) };
}

// One more high to choose from: the largest sums of at most so many of them.
// Kept: each sum is made of the one before it as that was, which a walk upwards over the sums alone would have to carry along.
fn admit(top: &mut [u32], count: usize, high: u16)
    requires room { count + 1 < length top.old }
    requires light { Light top.old count 4194304 }
    requires concave { Concave top.old count }
    ensures { Admitted top.old top.new count high }
{
    top[count + 1] = top[count] + u32::from(high);
    for k in (0..count).rev() {
        let with = top[k] + u32::from(high);
        // Where it is no gain, it is none among fewer, of which each adds as much or more.
        if with <= top[k + 1] {
            return;
        }
        top[k + 1] = with;
    }
}

// The sums, and how far the bounds of a certain count lie apart at most.
// Kept: one walk for all of these and the table, where a chain for each would go over the counts five times.
fn add_up(counts: &[Row], top: &mut [u32]) -> (Sums, u32)
    requires few { length counts.now ≤ 64 }
    requires whole { length counts.now < length top.old }
    ensures sums { Summed counts.now result.0 64 }
    ensures gap { result.1 ≡ gap counts.now }
    ensures tops { Topped counts.now top.new result.0 64 }
    ensures room { result.0.optional < length top.new }
{
    let mut certain = 0;
    let mut optional = 0;
    let mut lows = 0;
    let mut base = 0;
    let mut gap = 0;
    top[0] = 0;
    for Row { low, high } in counts.iter().rev().copied() {
        if low > 0 {
            certain += 1;
            lows += u32::from(low);
            base += u32::from(high);
            gap = gap.max(u32::from(high.saturating_sub(low)));
        } else if high > 0 {
            admit(top, optional as usize, high);
            optional += 1;
        }
    }
    let sums = Sums {
        certain,
        optional,
        lows,
        base,
    };
    (sums, gap)
}

impl Sums {
    // The most optional counts for which the variety and the slots have room; None where even none of them fits.
    fn most(self, slots: Row, variety: Row) -> Option<u32>
        ensures { result ≡ room_for self slots variety }
    {
        let kinds = u32::from(variety.high).checked_sub(self.certain)?;
        let copies = u32::from(slots.high).checked_sub(self.lows)?;
        Some(self.optional.min(kinds).min(copies))
    }

    // How many optional counts, from `least` to `most`, make up the floor at the earliest.
    // Kept: `least` nearly always do, so that they are tried before the walk.
    fn fewest(self, floor: u32, top: &[u32], least: u32, most: u32) -> Option<u32>
        requires whole { most < length top.now }
        requires few { most ≤ 64 }
        requires light { (k : ℕ) → k ≤ most → sum_at top.now self.base k < 16777216 }
        ensures { First top.now self.base floor least most result }
    {
        if least > most {
            return None;
        }
        if self.base + top[least as usize] >= floor {
            return Some(least);
        }
        (least + 1..most + 1).find(|k| self.base + top[*k as usize] >= floor)
    }
}

impl Frame {
    // With at least `fewest` and at most `most` optional counts present, of which `top` has the largest sums.
    fn between(slots: Row, sums: Sums, top: &[u32], fewest: u32, most: u32) -> Frame
        requires { Spanned slots sums top.now fewest most }
        ensures { result ≡ frame_with slots sums top.now fewest most }
    {
        let Sums {
            certain,
            optional,
            lows,
            base,
        } = sums;
        Frame {
            floor: u32::from(slots.low),
            ceiling: u32::from(slots.high),
            certain,
            optional,
            lows,
            fewest,
            most,
            under: base + top[fewest.saturating_sub(1) as usize],
            at: base + top[most as usize],
            over: base + top[optional.min(most + 1) as usize],
        }
    }

    // None where no filling of the rows meets the rule.
    // Kept: that the counts are 64 at most is a fact of the plate's record, which plain rows do not know.
    pub fn of<const N: usize>(slots: Row, variety: Row, counts: &[Row]) -> Option<(Frame, Widths)>
        requires few { length counts.now ≤ 64 }
        requires room { length counts.now < N }
        requires size { N ≤ 65 }
        ensures framed { Framed slots variety counts.now (the_frame result) }
        ensures widths { Widened counts.now result }
    {
        // Kept: settling has no heap, so the sums lie in an array that has room for all.
        let mut top = [0u32; N];
        let (sums, gap) = add_up(counts, &mut top);
        let most = sums.most(slots, variety)?;
        let least = u32::from(variety.low).saturating_sub(sums.certain);
        let floor = u32::from(slots.low);
        let fewest = sums.fewest(floor, &top, least, most)?;
        let widths = Widths {
            certain: gap,
            optional: top[sums.optional.min(1) as usize],
        };
        Some((Frame::between(slots, sums, &top, fewest, most), widths))
    }

    // Kept: that these casts and those below keep each number is proved, where a try_from would add an error that cannot be.
    pub fn slots(&self) -> Row
        ensures { result ≡ slots_of self.now }
    {
        Row {
            low: self.floor.max(self.lows + self.fewest) as u16,
            high: self.ceiling.min(self.at) as u16,
        }
    }

    pub fn variety(&self) -> Row
        ensures { result ≡ variety_of self.now }
    {
        Row {
            low: (self.certain + self.fewest) as u16,
            high: (self.certain + self.most) as u16,
        }
    }

    fn low(&self, row: Row) -> u16
        ensures { result ≡ low_of self.now row.low row.high }
    {
        let with = self.floor + u32::from(row.high);
        let need = with.saturating_sub(self.at) as u16;
        if row.low > 0 {
            row.low.max(need)
        } else if row.high == 0 || self.fewest < self.optional && with <= self.over {
            0
        } else {
            need.max(1)
        }
    }

    fn high(&self, row: Row) -> u16
        ensures { result ≡ high_of self.now row.low row.high }
    {
        let high = u32::from(row.high);
        let least = self.lows + self.fewest;
        let room = if row.low > 0 {
            (self.ceiling + u32::from(row.low)).saturating_sub(least)
        } else if self.fewest > 0 && self.floor <= high + self.under {
            (self.ceiling + 1).saturating_sub(least)
        } else if self.fewest < self.most {
            self.ceiling.saturating_sub(least)
        } else {
            0
        };
        high.min(room) as u16
    }

    fn count(&self, row: Row) -> Row
        ensures { result ≡ count_of self.now row }
    {
        Row {
            low: self.low(row),
            high: self.high(row),
        }
    }

    // Up to these widths every count keeps its bounds, which most do at most narrowings.
    #[tactic(auto, using(crate::proofs::Keeping::kept_is))]
    fn kept(&self) -> Widths
        ensures is { result ≡ widths_kept self.now }
        ensures kept { Kept self.now result }
    {
        let room = self.ceiling - (self.lows + self.fewest);
        let more = if self.fewest < self.most { room } else { 0 };
        let enter = if self.fewest > 0 && self.floor <= more + 1 + self.under {
            room + 1
        } else {
            more
        };
        let leave = if self.fewest < self.optional {
            self.over.saturating_sub(self.floor)
        } else {
            0
        };
        Widths {
            certain: room.min(self.at - self.floor),
            optional: enter.min(leave),
        }
    }

    // The new row of a count, where the widths up to which all keep their bounds are known.
    fn new_count(&self, kept: Widths, row: Row) -> Row
        requires { Kept self.now kept }
        ensures { result ≡ count_of self.now row }
    {
        let width = if row.low > 0 {
            kept.certain
        } else {
            kept.optional
        };
        if u32::from(row.high) <= u32::from(row.low) + width {
            return row;
        }
        self.count(row)
    }

    // Writes the new rows of the counts; whether one differs.
    pub fn put_counts(&self, widths: Widths, counts: &mut [Row]) -> bool
        requires wide { Wide counts.old widths }
        ensures { Wrote self.now counts.old counts.new result }
    {
        let kept = self.kept();
        if widths.certain <= kept.certain && widths.optional <= kept.optional {
            return false;
        }
        self.write_counts(kept, counts)
    }

    // Kept: the rows are written in any case, and that one differs is the whole of the answer.
    #[tactic(auto, using(crate::proofs::Writes::writing_all))]
    fn write_counts(&self, kept: Widths, counts: &mut [Row]) -> bool
        requires { Kept self.now kept }
        ensures { Wrote self.now counts.old counts.new result }
    {
        let mut changed = false;
        for row in counts.iter_mut() {
            let new = self.new_count(kept, *row);
            if new != *row {
                changed = true;
            }
            *row = new;
        }
        changed
    }
}
