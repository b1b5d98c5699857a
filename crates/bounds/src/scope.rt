// Cells that are named one after another, as a rule names its own.
ghost use Rattle.std.specs.Prelude.{◌≡◌, ℕ, ◌+◌, ◌^◌, ◌<◌, List, length, drop, slice_index, nat_lt};
ghost use Rattle.bounds.specs.Scoped.{fits, names, distinct};

use std::ops::Range;

pub trait Scope {
    ghost scope: { Self → List ℕ };

    // How many cells are named.
    fn arity(&self) -> usize
        ensures { result ≡ length (scope self.now) };

    fn cell(&self, i: usize) -> usize
        requires { i < length (scope self.now) }
        ensures { result ≡ slice_index (scope self.now) i };
}

// The indices of the cells from an index on.
fn indices<S: Scope>(named: &S, from: usize) -> Range<usize>
    ensures { (result.start ≡ from) × (result.end ≡ length (S.scope named.now)) }
{
    from..named.arity()
}

// Whether the cell at an index is one of so many cells.
fn cell_fits<S: Scope>(named: &S, i: usize, cells: usize) -> bool
    requires { i < length (S.scope named.now) }
    ensures { result ≡ nat_lt (slice_index (S.scope named.now) i) cells }
{
    named.cell(i) < cells
}

// Whether each is one of so many cells.
pub fn fits<S: Scope>(named: &S, cells: usize) -> bool
    ensures { result ≡ fits (S.scope named.now) cells }
{
    indices(named, 0).all(|i| cell_fits(named, i, cells))
}

// Whether the cell is named from an index on.
pub fn names<S: Scope>(named: &S, from: usize, cell: usize) -> bool
    ensures { result ≡ names (drop from (S.scope named.now)) cell }
{
    indices(named, from).any(|i| named.cell(i) == cell)
}

// Whether the cell at an index is named after it too.
fn again<S: Scope>(named: &S, i: usize) -> bool
    requires cell { i < length (S.scope named.now) }
    requires next { i + 1 < 2 ^ 64 }
    ensures { result ≡ names (drop (i + 1) (S.scope named.now)) (slice_index (S.scope named.now) i) }
{
    names(named, i + 1, named.cell(i))
}

// Whether no cell is named twice.
pub fn distinct<S: Scope>(named: &S) -> bool
    ensures { result ≡ distinct (S.scope named.now) }
{
    indices(named, 0).all(|i| !again(named, i))
}
