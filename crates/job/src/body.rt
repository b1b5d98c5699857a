// A body of the file, tagged by its kind.
// Kept: a rule of the project: an entry gives its body as that part of the file, in a case of an enum for each kind.
#[derive(Clone, Copy)]
pub enum Body<'f> {
    Cells(&'f [u8]),
    Plates(&'f [u8]),
    Triples(&'f [u8]),
    Totals(&'f [u8]),
}

mod of;
mod walk;
