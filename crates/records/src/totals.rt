// Totals: a floor and a ceiling for the weighted sum of 1 to 64 cells.
ghost use Rattle.std.specs.Prelude.{◌≡◌, ◌+◌, map, slice_index};
ghost use Rattle.records.specs.Bytes.{number};
ghost use Rattle.records.specs.Records.{total_at};
ghost use Rattle.records.specs.Forms.{totals_form};

use crate::body::{BodyKind, MOST_LISTED};
use crate::bytes::Spot;
use crate::kind::Kind;

const MOST_CEILING: u64 = 10_000_000_000_000;

#[derive(Clone, Copy)]
pub struct TotalHead {
    pub cells: u16,
    pub floor: u64,
    pub ceiling: u64,
}

pub struct Totals;

impl BodyKind for Totals {
    type Record = TotalHead;

    const HEAD: usize = 18;

    ghost form = { totals_form };

    ghost record_at = { λ b i. record { cells = number 2 b i; floor = number 8 b (i + 2); ceiling = number 8 b (i + 10) } };

    fn kind() -> Kind {
        Kind::Totals
    }

    fn read(at: Spot<'_>) -> TotalHead {
        TotalHead {
            cells: at.u16(0),
            floor: at.u64(2),
            ceiling: at.u64(10),
        }
    }

    #[tactic(auto, using(crate::proofs::Fields::length_terms))]
    fn size(at: Spot<'_>) -> usize {
        Self::HEAD + 6 * usize::from(at.u16(0))
    }

    #[tactic(auto, using(crate::proofs::Fields::length_terms))]
    fn keeps_limits(at: Spot<'_>) -> bool {
        let head = Self::read(at);
        (1..=MOST_LISTED).contains(&head.cells)
            && head.floor <= head.ceiling
            && head.ceiling <= MOST_CEILING
            && weights_keep(at)
    }

    #[tactic(auto, using(crate::proofs::Fields::length_cells))]
    fn arity(at: Spot<'_>) -> usize {
        usize::from(at.u16(0))
    }

    #[tactic(auto, using(crate::proofs::Fields::length_cells, crate::proofs::Fields::get_or_cells, std::proofs::lemmas::List::get_or_past))]
    fn name(at: Spot<'_>, index: usize) -> u16 {
        if index < usize::from(at.u16(0)) {
            at.u16(Self::HEAD + 6 * index)
        } else {
            0
        }
    }
}

impl Totals {
    // The weight of the cell at an index; 0 past the last.
    // Kept: as `name` has it, since only cells up to the arity are asked for.
    #[tactic(auto, using(crate::proofs::Fields::length_weights, crate::proofs::Fields::length_cells, crate::proofs::Fields::get_or_weights, std::proofs::lemmas::List::get_or_past))]
    pub fn weight(at: Spot<'_>, index: usize) -> u32
        ensures { result ≡ slice_index (map (λ t. t.weight) (total_at at.entry.bytes.now at.entry.place).terms) index }
    {
        if index < usize::from(at.u16(0)) {
            at.u32(Self::HEAD + 6 * index + 2)
        } else {
            0
        }
    }
}

mod weights;

use weights::weights_keep;
