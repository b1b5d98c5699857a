// The own rows of a rule that names N cells, as an array.
ghost use Rattle.std.specs.Prelude.{◌≡◌, length, if◌then◌else◌};
ghost use Rattle.bounds.specs.Boards.{void, cells, sound};
ghost use Rattle.rule_families.specs.Narrows.{Narrows};
ghost use Rattle.rules.specs.Answers.{board_of};

use bounds::row::{Row, all_sound};
use rule_families::change::Change;

pub fn array_of<const N: usize>(own: &[Row]) -> [Row; N]
    requires { length own.now ≡ N }
    ensures { result ≡ own.now }
{
    <[Row; N]>::try_from(own).unwrap()
}

// The rows, if each holds a count.
pub fn if_sound<const N: usize>(rows: [Row; N]) -> Option<[Row; N]>
    ensures { board_of result ≡ (if sound rows.entry then cells rows.entry else void) }
{
    all_sound(&rows).then_some(rows)
}

// Writes the narrowed rows over a rule's own; without any, the rule has no filling left.
#[tactic(auto, using(crate::proofs::Compared::slices_tested))]
pub fn written<const N: usize>(own: &mut [Row], narrowed: Option<[Row; N]>) -> Change
    requires { length own.old ≡ N }
    ensures { Narrows (λ _. board_of narrowed.entry) own.old own.new result }
{
    let Some(rows) = narrowed else {
        return Change::Void;
    };
    if &*own == rows.as_slice() {
        Change::Quiet
    } else {
        own.copy_from_slice(&rows);
        Change::Narrowed
    }
}
