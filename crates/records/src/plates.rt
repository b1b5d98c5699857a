// Plates: a cell for the slots, a cell for the variety, and 1 to 64 count cells.
ghost use Rattle.std.specs.Prelude.{◌+◌};
ghost use Rattle.records.specs.Bytes.{number};
ghost use Rattle.records.specs.Forms.{plates_form};

use crate::body::{BodyKind, MOST_LISTED};
use crate::bytes::Spot;
use crate::kind::Kind;

#[derive(Clone, Copy)]
pub struct PlateHead {
    pub slots: u16,
    pub variety: u16,
    pub counts: u16,
}

pub struct Plates;

impl BodyKind for Plates {
    type Record = PlateHead;

    const HEAD: usize = 6;

    ghost form = { plates_form };

    ghost record_at = { λ b i. record { slots = number 2 b i; variety = number 2 b (i + 2); counts = number 2 b (i + 4) } };

    fn kind() -> Kind {
        Kind::Plates
    }

    fn read(at: Spot<'_>) -> PlateHead {
        PlateHead {
            slots: at.u16(0),
            variety: at.u16(2),
            counts: at.u16(4),
        }
    }

    #[tactic(auto, using(crate::proofs::Fields::length_numbers))]
    fn size(at: Spot<'_>) -> usize {
        Self::HEAD + 2 * usize::from(at.u16(4))
    }

    #[tactic(auto, using(crate::proofs::Fields::length_numbers))]
    fn keeps_limits(at: Spot<'_>) -> bool {
        (1..=MOST_LISTED).contains(&at.u16(4))
    }

    #[tactic(auto, using(crate::proofs::Fields::length_numbers))]
    fn arity(at: Spot<'_>) -> usize {
        2 + usize::from(at.u16(4))
    }

    #[tactic(auto, using(crate::proofs::Fields::length_numbers, crate::proofs::Fields::get_or_numbers, std::proofs::lemmas::List::get_or_past))]
    fn name(at: Spot<'_>, index: usize) -> u16 {
        match index {
            0 => at.u16(0),
            1 => at.u16(2),
            _ if index - 2 < usize::from(at.u16(4)) => at.u16(Self::HEAD + 2 * (index - 2)),
            _ => 0,
        }
    }
}
