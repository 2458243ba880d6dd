// How a word of `names` is shown in a line.
use std::{fmt, str};

// A word in 36 octets, without the spaces behind it.
#[derive(Clone, Copy)]
pub(crate) struct Word(pub(crate) [u8; 36]);

impl fmt::Display for Word {
    fn fmt<W: fmt::Write>(&self, f: &mut fmt::Formatter<W>) -> fmt::Result {
        let end = self.0.iter().position(|octet| *octet == b' ').unwrap_or(36);
        f.write_str(str::from_utf8(&self.0[..end]).map_err(|_| fmt::Error)?)
    }
}
