// The body that an entry of the contents has.
ghost use Rattle.std.specs.Prelude.{◌≡◌, ◌+◌, ◌≤◌, length};
ghost use Rattle.job.specs.Bodies.{body_form, body_bytes};
ghost use Rattle.job.specs.Reading.{form_of, body};

use super::Body;
use crate::entry::Entry;
use crate::file::File;
use records::kind::Kind;

impl<'f> Body<'f> {
    // A body of a kind that is none is read as one of totals; lawful contents have no such entry.
    // Kept: so does the definition of a reading, and no type of an entry says that its kind is one.
    pub fn of(file: File<'f>, entry: Entry) -> Body<'f>
        requires { entry.offset + entry.size ≤ length file.bytes.now }
        ensures kind { body_form result ≡ form_of entry.kind }
        ensures bytes { body_bytes result ≡ body file.entry.bytes.now entry }
        ensures short { entry.offset + length (body_bytes result) ≤ 65535 }
    {
        let bytes = &file.bytes[entry.start()..entry.end()];
        match Kind::try_from(entry.kind) {
            Ok(Kind::Cells) => Body::Cells(bytes),
            Ok(Kind::Plates) => Body::Plates(bytes),
            Ok(Kind::Triples) => Body::Triples(bytes),
            Ok(Kind::Totals) | Err(_) => Body::Totals(bytes),
        }
    }

    pub fn bytes(self) -> &'f [u8]
        ensures { result.now ≡ body_bytes self.entry }
    {
        match self {
            Body::Cells(bytes) | Body::Plates(bytes) | Body::Triples(bytes) | Body::Totals(bytes) =>
                bytes,
        }
    }
}
