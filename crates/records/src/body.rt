// What the four kinds of body share.
ghost use Rattle.std.specs.Prelude.{◌≡◌, ℕ, ◌^◌, ◌<◌, List, length, slice_index};
ghost use Rattle.records.specs.Forms.{Form};
ghost use Rattle.records.specs.Kinds.{kind_number};

use crate::bytes::Spot;
use crate::kind::Kind;

// The most count cells of a plate, and the most cells of a total.
pub const MOST_LISTED: u16 = 64;

// A body is one record after another; its bytes are read with 0 past their end.
pub trait BodyKind {
    // What the fields at its start say.
    type Record;

    // The bytes that they take.
    const HEAD: usize;

    ghost form: { Form };

    ghost record_at: { List ℕ → ℕ → Self.Record };

    fn kind() -> Kind
        ensures { kind_number result ≡ form.kind };

    fn read(at: Spot<'_>) -> Self::Record
        ensures { result ≡ record_at at.entry.bytes.now at.entry.place };

    // The bytes of the whole record, with its count as written.
    fn size(at: Spot<'_>) -> usize
        ensures value { result ≡ form.size at.entry.bytes.now at.entry.place }
        ensures low_bound { 0 < result }
        ensures high_bound { result < 2 ^ 20 };

    fn keeps_limits(at: Spot<'_>) -> bool
        ensures { result ≡ form.limits at.entry.bytes.now at.entry.place };

    // How many cells the record names.
    fn arity(at: Spot<'_>) -> usize
        ensures { result ≡ length (form.names at.entry.bytes.now at.entry.place) };

    // The cell at an index; 0 past the last.
    // Kept: only the cells up to the arity are asked for, and an Option would be unwrapped at each of them.
    fn name(at: Spot<'_>, index: usize) -> u16
        ensures { result ≡ slice_index (form.names at.entry.bytes.now at.entry.place) index };
}
