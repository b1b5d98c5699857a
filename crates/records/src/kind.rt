// The four kinds of body.
ghost use Rattle.std.specs.Prelude.{◌≡◌, false, MatchResult};
ghost use Rattle.records.specs.Kinds.{kind_number};
ghost use Rattle.records.specs.Forms.{between};

#[derive(Clone, Copy, PartialEq, Eq, Debug)]
pub enum Kind {
    Cells = 1,
    Plates = 2,
    Triples = 3,
    Totals = 4,
}

// A number that no kind has.
#[derive(Clone, Copy, PartialEq, Eq, Debug)]
pub struct Unknown;

impl TryFrom<u8> for Kind {
    type Error = Unknown;

    ghost try_from_gives = { λ n r. MatchResult r (λ kind. kind_number kind ≡ n) (λ _. between 1 4 n ≡ false) };

    fn try_from(number: u8) -> Result<Kind, Unknown> {
        match number {
            1 => Ok(Kind::Cells),
            2 => Ok(Kind::Plates),
            3 => Ok(Kind::Triples),
            4 => Ok(Kind::Totals),
            _ => Err(Unknown),
        }
    }
}

impl From<Kind> for u8 {
    ghost from_gives = { λ kind n. n ≡ kind_number kind };

    fn from(kind: Kind) -> u8 {
        kind as u8
    }
}
