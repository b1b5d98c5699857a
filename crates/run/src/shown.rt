// An answer as a line, with no newline.
use crate::answer::Answer;
use std::fmt;

// With the plan memory, in which the counts of a plan stand.
#[derive(Clone, Copy, Debug)]
pub struct Shown<'a> {
    pub answer: Answer,
    pub plans: &'a [u16],
}

impl fmt::Display for Shown<'_> {
    fn fmt<W: fmt::Write>(&self, f: &mut fmt::Formatter<W>) -> fmt::Result {
        match self.answer {
            Answer::Granted => write!(f, "granted"),
            Answer::Slip(serial) => write!(f, "slip {serial}"),
            Answer::Cell { cell, low, high } => write!(f, "{cell} {low} {high}"),
            Answer::Settled(applied) => write!(f, "settled {applied}"),
            Answer::Void(applied) => write!(f, "void {applied}"),
            Answer::Plan { from, to } => {
                write!(f, "plan")?;
                for count in self.plans.get(from..to).unwrap_or(&[]) {
                    write!(f, " {count}")?;
                }
                Ok(())
            }
            Answer::NoPlan => write!(f, "no plan"),
            Answer::Refused(why) => {
                let number = why.number();
                write!(f, "refused {number}")
            }
        }
    }
}
