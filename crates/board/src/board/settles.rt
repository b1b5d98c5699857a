// What narrows a board until no rule narrows it.
ghost use Rattle.std.specs.Prelude.{◌≡◌, ◌<◌, ◌≤◌, true, length, take, drop};
ghost use Rattle.bounds.specs.Boards.{sound, Lies};
ghost use Rattle.board.specs.Calls.{board, Does};
ghost use Rattle.board.specs.Held.{state, event_of_settle, OnlyRows};
ghost use Rattle.settling.specs.Plans.{Widest};
ghost use Rattle.settling.specs.Settles.{Settles};

use super::Board;
use bounds::row::Row;
use rule_families::family::Family;
use settling::settle::settle_rows;
use settling::settled::Settled;

impl Board {
    // Applies the lowest-numbered rule that changes the board until none does, or one voids it.
    pub fn settle<F: Family>(&mut self, family: &F) -> Settled
        ensures does { Does (F.meaning family.now) (state self.old) (event_of_settle result) (state self.new) }
        ensures widest { Widest (F.meaning family.now) (λ p. Lies p (board (state self.old))) (board (state self.new)) }
        ensures memory { OnlyRows self.old self.new }
    {
        self.apply(family)
    }

    // That the board left is the widest follows from what was applied.
    fn apply<F: Family>(&mut self, family: &F) -> Settled
        ensures does { Does (F.meaning family.now) (state self.old) (event_of_settle result) (state self.new) }
        ensures memory { OnlyRows self.old self.new }
    {
        if self.control.void {
            return Settled::Void(0);
        }
        let settled = settle_front(family, &mut self.rows, self.control.cells);
        if let Settled::Void(_) = settled {
            self.control.void = true;
        }
        settled
    }
}

// Settles the first rows alone: past them memory stays.
fn settle_front<F: Family>(family: &F, rows: &mut [Row], cells: usize) -> Settled
    requires sound { sound (take cells rows.old) ≡ true }
    requires few { cells ≤ 1024 }
    requires room { cells ≤ length rows.old }
    ensures front { Settles (F.meaning family.now) (take cells rows.old) (take cells rows.new) result }
    ensures past { drop cells rows.new ≡ drop cells rows.old }
    ensures sound { sound (take cells rows.new) ≡ true }
{
    settle_rows(family, &mut rows[..cells])
}
