// Numbers in the job file's bytes, lowest byte first; a byte past the end reads as 0.
ghost use Rattle.std.specs.Prelude.{◌≡◌, ℕ, ◌+◌, ◌<◌, ◌≤◌, drop, length, nat_le, slice_index};
ghost use Rattle.records.specs.Bytes.{number};

use std::array;

// A place in a job file's bytes.
#[derive(Clone, Copy)]
pub struct Spot<'f> {
    pub bytes: &'f [u8],
    pub place: usize,
}

impl<'f> Spot<'f> {
    pub fn u8(self, offset: usize) -> u8
        ensures { result ≡ slice_index self.entry.bytes.now (self.entry.place + offset) }
    {
        byte_at(self.rest(), offset)
    }

    // The number so many bytes past the place.
    pub fn u16(self, offset: usize) -> u16
        ensures { result ≡ number 2 self.entry.bytes.now (self.entry.place + offset) }
    {
        u16_at(self.rest(), offset)
    }

    pub fn u32(self, offset: usize) -> u32
        ensures { result ≡ number 4 self.entry.bytes.now (self.entry.place + offset) }
    {
        u32_at(self.rest(), offset)
    }

    pub fn u64(self, offset: usize) -> u64
        ensures { result ≡ number 8 self.entry.bytes.now (self.entry.place + offset) }
    {
        u64_at(self.rest(), offset)
    }

    // Whether so many bytes stand from the place on.
    pub fn holds(self, bytes: usize) -> bool
        ensures { result ≡ nat_le (self.entry.place + bytes) (length self.entry.bytes.now) }
    {
        self.place <= self.bytes.len() && bytes <= self.bytes.len() - self.place
    }

    // The number so many bytes past the place, where it is known to end within the bytes.
    pub fn u16_inside(self, offset: usize) -> u16
        requires { self.place + offset + 2 ≤ length self.bytes.now }
        ensures { result ≡ number 2 self.entry.bytes.now (self.entry.place + offset) }
    {
        let place = self.place + offset;
        u16::from_le_bytes([self.bytes[place], self.bytes[place + 1]])
    }

    pub fn u32_inside(self, offset: usize) -> u32
        requires { self.place + offset + 4 ≤ length self.bytes.now }
        ensures { result ≡ number 4 self.entry.bytes.now (self.entry.place + offset) }
    {
        let place = self.place + offset;
        u32::from_le_bytes([
            self.bytes[place],
            self.bytes[place + 1],
            self.bytes[place + 2],
            self.bytes[place + 3],
        ])
    }

    // What stands from the place on: nothing past the end.
    fn rest(self) -> &'f [u8]
        ensures { result.now ≡ drop self.entry.place self.entry.bytes.now }
    {
        &self.bytes[self.place.min(self.bytes.len())..]
    }
}

// Kept: public promises of this crate, as the three for numbers below: they read bytes without a spot, and outside only vectors calls one, `u32_at`.
pub fn byte_at(file: &[u8], place: usize) -> u8
    ensures { result ≡ slice_index file.now place }
{
    file.get(place).copied().unwrap_or(0)
}

// The bytes from a place on.
fn bytes_at<const N: usize>(file: &[u8], place: usize) -> [u8; N]
    ensures long { length result ≡ N }
    ensures each { (i : ℕ) → i < N → slice_index result i ≡ slice_index file.now (place + i) }
{
    if place <= file.len()
        && let Some(whole) = file[place..].first_chunk()
    {
        return *whole;
    }
    cut_off(file, place)
}

// The same where the file's end cuts them off.
// Kept: not inlined, so that the loops over numbers stay short.
#[cold]
#[inline(never)]
fn cut_off<const N: usize>(file: &[u8], place: usize) -> [u8; N]
    ensures long { length result ≡ N }
    ensures each { (i : ℕ) → i < N → slice_index result i ≡ slice_index file.now (place + i) }
{
    let rest = Spot { bytes: file, place }.rest();
    array::from_fn(|i| byte_at(rest, i))
}

// Kept: one for each width, since each number type has a `from_le_bytes` of its own.
pub fn u16_at(file: &[u8], place: usize) -> u16
    ensures { result ≡ number 2 file.now place }
{
    u16::from_le_bytes(bytes_at(file, place))
}

pub fn u32_at(file: &[u8], place: usize) -> u32
    ensures { result ≡ number 4 file.now place }
{
    u32::from_le_bytes(bytes_at(file, place))
}

pub fn u64_at(file: &[u8], place: usize) -> u64
    ensures { result ≡ number 8 file.now place }
{
    u64::from_le_bytes(bytes_at(file, place))
}
