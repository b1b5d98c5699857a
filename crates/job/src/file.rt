// A file that has no more bytes than it may have.
ghost use Rattle.std.specs.Prelude.{◌≤◌, length};

#[derive(Clone, Copy)]
pub struct File<'f> {
    pub bytes: &'f [u8],
    ghost short: { length bytes.now ≤ 65535 },
}

pub mod reach;
