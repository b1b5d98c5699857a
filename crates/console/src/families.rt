// The rules of a job: its plates, then its triples, then its totals.
ghost use Rattle.std.specs.Prelude.{◌≡◌};
ghost use Rattle.job.specs.Jobs.{job_file, job_found};
ghost use Rattle.console.specs.Jobs.{JobRules};

use job::job::Job;
use plates::family::Plates;
use rule_families::beside::Beside;
use totals::family::{TotalList, Totals};
use triples::family::Triples;

pub type Families<'f> = Beside<Plates<'f>, Beside<Triples<'f>, Totals<'f>>>;

pub fn rules_of<'j, 'f>(job: &'j Job<'f>) -> Families<'j>
    ensures { JobRules (job_file job.now) (job_found job.now) result }
{
    let file = job.file();
    Beside {
        first: Plates::at(file, job.plate_places()),
        second: Beside {
            first: Triples::at(file, job.triple_places()),
            second: TotalList::at(file, job.total_places()),
        },
    }
}
