// What opens a trial and what closes it.
ghost use Rattle.std.specs.Prelude.{◌≡◌, ◌+◌, ◌*◌, ◌≤◌, false, length, take, drop, is_ok};
ghost use Rattle.board.specs.Held.{event_of_open, event_of_keep, event_of_drop, Did, Frame, OnlyRows, Outside, Pasted, Places, slot};

use super::Board;
use crate::refusal::Refusal;
use crate::unfit::MOST_TRIALS;
use bounds::row::Row;

// What opening a trial gives out, to be spent on keeping or dropping it.
// Kept: by `From` an `.into()` would make or spend a slip without a word, where these two say which serial is meant.
pub struct Slip {
    serial: u32,
}

impl Slip {
    // The slip of a serial that was written down.
    pub fn of(serial: u32) -> Slip
        ensures { result.serial ≡ serial }
    {
        Slip { serial }
    }

    // Spends the slip for its serial, to be written down.
    pub fn into_serial(self) -> u32
        ensures { result ≡ self.serial }
    {
        let Slip { serial } = self;
        serial
    }
}

// Writes the rows that the trial at the place saved over the front of the rows.
// Kept: the trial memory is one piece that the caller lends, so a trial is a part of it by its number.
fn restore(saved: &[Row], rows: &mut [Row], cells: usize, place: usize)
    requires saved { place * cells + cells ≤ length saved.now }
    requires room { cells ≤ length rows.old }
    ensures front { take cells rows.new ≡ slot cells place saved.now }
    ensures past { drop cells rows.new ≡ drop cells rows.old }
{
    rows[..cells].copy_from_slice(&saved[place * cells..][..cells]);
}

// Saves the first rows at the place, for a trial.
fn save(rows: &[Row], saved: &mut [Row], cells: usize, place: usize)
    requires room { place * cells + cells ≤ length saved.old }
    requires rows { cells ≤ length rows.now }
    ensures { Pasted (place * cells) (take cells rows.now) saved.old saved.new }
{
    let start = place * cells;
    saved[start..start + cells].copy_from_slice(&rows[..cells]);
}

impl Board {
    // The place of the newest open trial that the slip is for.
    fn place(&self, slip: Slip) -> Result<usize, Refusal>
        ensures { Places self.now.control slip.serial result }
    {
        let Slip { serial } = slip;
        self.control.trials[..self.control.depth]
            .iter()
            .rposition(|trial| trial.serial == serial)
            .ok_or(Refusal::Gone)
    }

    #[tactic(auto, using(crate::proofs::Opening::opening))]
    pub fn open(&mut self) -> Result<Slip, Refusal>
        ensures does { Did self.old (event_of_open result) self.new }
        ensures frame { Frame self.old self.new }
        ensures outside { Outside self.old self.new self.old.control.depth }
        ensures rows { self.new.rows.items ≡ self.old.rows.items }
        ensures refused { is_ok result ≡ false → self.new.saved.items ≡ self.old.saved.items }
    {
        let depth = self.control.depth;
        if depth >= MOST_TRIALS {
            return Err(Refusal::Depth);
        }
        let serial = self.control.given.checked_add(1).ok_or(Refusal::Serial)?;
        let cells = self.control.cells;
        save(&self.rows, &mut self.saved, cells, depth);
        let void = self.control.void;
        let trial = &mut self.control.trials[depth];
        trial.serial = serial;
        trial.void = void;
        self.control.given = serial;
        self.control.depth = depth + 1;
        Ok(Slip { serial })
    }

    #[tactic(auto, using(crate::proofs::Closing::closing))]
    pub fn keep(&mut self, slip: Slip) -> Result<(), Refusal>
        ensures does { Did self.old (event_of_keep slip result) self.new }
        ensures memory { OnlyRows self.old self.new }
    {
        let left = self.place(slip)?;
        self.control.depth = left;
        Ok(())
    }

    #[tactic(auto, using(crate::proofs::Closing::closing))]
    pub fn drop(&mut self, slip: Slip) -> Result<(), Refusal>
        ensures does { Did self.old (event_of_drop slip result) self.new }
        ensures memory { OnlyRows self.old self.new }
    {
        let place = self.place(slip)?;
        let cells = self.control.cells;
        restore(&self.saved, &mut self.rows, cells, place);
        self.control.void = self.control.trials[place].void;
        self.control.depth = place;
        Ok(())
    }
}
