// A board over two pieces of memory: its rows, and the rows that its open trials saved, the oldest first.
ghost use Rattle.std.specs.Prelude.{◌≡◌, ℕ, ◌*◌, ◌<◌, ◌≤◌, true, length, take, vec_len, slice_index_or};
ghost use Rattle.bounds.specs.Boards.{sound};
ghost use Rattle.board.specs.Records.{none_trial};

use crate::control::Control;
use bounds::row::Row;

// Kept: a Model whose value is the state could not name the memory past it, of which the calls' contracts speak too.
#[derive(Drop)]
pub struct Board {
    rows: Vec<Row>,
    saved: Vec<Row>,
    control: Control,
    ghost some: { 1 ≤ control.cells },
    ghost few: { control.cells ≤ 1024 },
    ghost room: { control.cells ≤ vec_len rows },
    ghost trial_room: { 16 * control.cells ≤ vec_len saved },
    ghost sixteen: { length control.trials ≡ 16 },
    ghost shallow: { control.depth ≤ 16 },
    ghost numbered: { (i : ℕ) → i < control.depth → (slice_index_or control.trials i none_trial).serial ≤ control.given },
    ghost rows_sound: { sound (take control.cells rows.items) ≡ true },
    ghost saved_sound: { sound (take (control.depth * control.cells) saved.items) ≡ true },
}

mod asks;
mod makes;
mod reads;
mod settles;
mod tightens;
mod trials;

pub use trials::Slip;
