// The plates of a job file, one rule to a record.
ghost use Rattle.std.specs.Prelude.{Some};
ghost use Rattle.bounds.proofs.Lifted.{exact_on_laws};
ghost use Rattle.records.specs.Records.{plate_at};
ghost use Rattle.plates.specs.Plates.{plate, scope_of, plate_rule};

use crate::plate::Plate;
use records::bytes::Spot;
use rules::numbered::Rules;
use rules::recorded::{Listed, Recorded};

pub type Plates<'f> = Rules<Listed<'f, Plate<'f>>>;

impl<'f> Recorded<'f> for Plate<'f> {
    ghost reads = { λ spot. plate_rule spot.bytes.now spot.place };

    ghost reads_lawful = { λ spot. exact_on_laws (scope_of (plate_at spot.bytes.now spot.place)) plate };

    fn read(spot: Spot<'f>) -> Option<Plate<'f>> {
        Some(Plate::at(spot))
    }
}
