// The first body: the bounds of the cells.
ghost use Rattle.records.specs.Records.{bounds_at};
ghost use Rattle.records.specs.Forms.{cells_form};

use crate::body::BodyKind;
use crate::bytes::Spot;
use crate::kind::Kind;
use bounds::row::Row;

pub struct Cells;

impl BodyKind for Cells {
    type Record = Row;

    const HEAD: usize = 4;

    ghost form = { cells_form };

    ghost record_at = { bounds_at };

    fn kind() -> Kind {
        Kind::Cells
    }

    fn read(at: Spot<'_>) -> Row {
        Row {
            low: at.u16(0),
            high: at.u16(2),
        }
    }

    fn size(_at: Spot<'_>) -> usize {
        Self::HEAD
    }

    fn keeps_limits(at: Spot<'_>) -> bool {
        Self::read(at).is_sound()
    }

    fn arity(_at: Spot<'_>) -> usize {
        0
    }

    fn name(_at: Spot<'_>, _index: usize) -> u16 {
        0
    }
}
