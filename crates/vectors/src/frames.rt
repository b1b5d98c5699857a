// The jobs of an input, each in a frame that begins with its length.
ghost use Rattle.std.specs.Prelude.{◌≡◌, ◌<◌, ◌++◌, [], length, drop, min, MatchOption};
ghost use Rattle.std.specs.Iterator.{at_most};
ghost use Rattle.records.specs.Bytes.{number};

use records::bytes::u32_at;

#[derive(Drop)]
pub struct Frames<'a>(pub &'a [u8]);

impl<'a> Iterator for Frames<'a> {
    type Item = &'a [u8];

    ghost next_gives = { λ s r t. MatchOption r (s.0.now ≡ []) (λ job. (job.now ++ t.0.now ≡ drop 4 s.0.now) × (length job.now ≡ min (number 4 s.0.now 0) (length (drop 4 s.0.now)))) };

    ghost remaining = { λ s. at_most (length s.0.now) };

    fn next(&mut self) -> Option<&'a [u8]> {
        let (job, rest) = frame(self.0)?;
        self.0 = rest;
        Some(job)
    }
}

// The first job and the bytes past it; the job is no longer than the input.
fn frame(input: &[u8]) -> Option<(&[u8], &[u8])>
    ensures parts { MatchOption result (input.now ≡ []) (λ r. r.0.now ++ r.1.now ≡ drop 4 input.now) }
    ensures size { MatchOption result (input.now ≡ []) (λ r. length r.0.now ≡ min (number 4 input.now 0) (length (drop 4 input.now))) }
    ensures shorter { MatchOption result (input.now ≡ []) (λ r. length r.1.now < length input.now) }
{
    if input.is_empty() {
        return None;
    }
    let body = input.get(4..).unwrap_or(&[]);
    // Kept: no From takes a u32 to a usize.
    let size = u32_at(input, 0) as usize;
    Some(body.split_at(size.min(body.len())))
}
