// The triples of a job file, one rule to a record.
use crate::triple::Triple;
use rules::numbered::Rules;
use rules::recorded::Listed;

pub type Triples<'f> = Rules<Listed<'f, Triple>>;
