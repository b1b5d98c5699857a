// The board of a job, in memory that is handed in.
#![tactic(auto)]

ghost use Rattle.std.specs.Prelude.{◌≡◌, ◌*◌, ◌<◌, ◌≤◌, true, false, ◌⊎◌, length, take, drop, Ok, IfErr, vec_len, slice_index_or};
ghost use Rattle.bounds.specs.Boards.{none_row};
ghost use Rattle.job.specs.Jobs.{job_file};
ghost use Rattle.boards.specs.Opening.{job_rows, no_room, Opens, HasRoom};

use board::board::Board;
use board::unfit::room_for;
use bounds::row::Row;
use job::job::Job;
use records::refused::Refused;

// Memory that has no room for a job's board, given back, and what the job is told.
#[derive(Drop)]
pub struct NoRoom {
    pub refused: Refused,
    pub rows: Vec<Row>,
    pub saved: Vec<Row>,
}

// The board as read. Where the memory is too small it comes back untouched.
#[tactic(auto, using(crate::proofs::Opened::roomless_job))]
pub fn board_of(job: &Job<'_>, rows: Vec<Row>, saved: Vec<Row>) -> Result<Board, NoRoom>
    ensures opens { Opens (job_rows job.now) rows saved result }
    ensures room { HasRoom (job_rows job.now) rows saved result }
    ensures told { IfErr result (λ e. e.refused ≡ no_room (job_file job.now)) }
{
    if !has_room(job, &rows, &saved) {
        return Err(NoRoom {
            refused: room_refused(job),
            rows,
            saved,
        });
    }
    Ok(laid_out(job, rows, saved))
}

// Whether the board memory holds the job's cells, and the trial memory 16 times that.
#[tactic(auto, using(crate::proofs::Opened::rows_counted, crate::proofs::Opened::roomy, crate::proofs::Opened::fitting))]
fn has_room(job: &Job<'_>, rows: &[Row], saved: &[Row]) -> bool
    ensures enough { result ≡ true → (length (job_rows job.now) ≤ length rows.now) × (16 * length (job_rows job.now) ≤ length saved.now) }
    ensures short { result ≡ false → (length rows.now < length (job_rows job.now)) ⊎ (length saved.now < 16 * length (job_rows job.now)) }
{
    let cells = usize::from(job.cells());
    room_for(cells, rows.len(), saved.len()).is_ok()
}

// The board over memory that has room, with the job's rows at its front.
fn laid_out(job: &Job<'_>, rows: Vec<Row>, saved: Vec<Row>) -> Board
    requires rows { length (job_rows job.now) ≤ vec_len rows }
    requires trials { 16 * length (job_rows job.now) ≤ vec_len saved }
    ensures { Opens (job_rows job.now) rows saved (Ok result) }
{
    let mut rows = rows;
    fill(job, &mut rows);
    let Ok(board) = Board::over(rows, saved, usize::from(job.cells())) else {
        unreachable!()
    };
    board
}

// Line 8, at the file's length.
fn room_refused(job: &Job<'_>) -> Refused
    ensures { result ≡ no_room (job_file job.now) }
{
    Refused {
        number: 8,
        kind: 0,
        // Kept: that the cast keeps the number is proved, where a try_from would add an error that cannot be.
        place: job.file().len() as u16,
    }
}

// Writes the cells' bounds into the first rows.
#[tactic(auto, using(crate::proofs::Opened::filling))]
fn fill(job: &Job<'_>, rows: &mut [Row])
    requires { length (job_rows job.now) ≤ length rows.old }
    ensures front { take (length (job_rows job.now)) rows.new ≡ job_rows job.now }
    ensures past { drop (length (job_rows job.now)) rows.new ≡ drop (length (job_rows job.now)) rows.old }
{
    for (number, bounds) in rows[..usize::from(job.cells())].iter_mut().enumerate() {
        // Kept: after a loop over `(0..cells).zip(rows.iter_mut())`, which needs no cast, a proof knows nothing of the rows.
        *bounds = row(job, number as u16);
    }
}

// The bounds of a cell; past the last, those of no copy.
// Kept: apart from the loop, whose proof does not see through the Option.
#[tactic(auto, unfolding(crate::specs::Opening::job_rows))]
fn row(job: &Job<'_>, number: u16) -> Row
    ensures { result ≡ slice_index_or (job_rows job.now) number none_row }
{
    job.cell(number).unwrap_or_default()
}
