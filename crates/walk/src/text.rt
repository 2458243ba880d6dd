// How octets, and what may be missing, are shown in a line.
ghost use Rattle.std.specs.Prelude.{◌≡◌, ◌<◌, ◌++◌, [], ◌∷◌};
ghost use Rattle.walk.specs.Digits.{hex_digit_ascii, last_digits};

use std::fmt;

// Two hex digits for each octet. `{:02x}` takes more than twice as long, and most of a line that shows a question is hex.
#[derive(Clone, Copy)]
pub(crate) struct Hex<'a>(pub(crate) &'a [u8]);

impl fmt::Display for Hex<'_> {
    fn fmt<W: fmt::Write>(&self, f: &mut fmt::Formatter<W>) -> fmt::Result {
        for octet in self.0 {
            let (high, low) = two_digits(*octet);
            f.write_str(high)?;
            f.write_str(low)?;
        }
        Ok(())
    }
}

fn two_digits(octet: u8) -> (&'static str, &'static str)
    ensures { result.0.now ++ result.1.now ≡ last_digits 16 2 octet }
{
    (digit(octet / 16), digit(octet % 16))
}

fn digit(d: u8) -> &'static str
    requires { d < 16 }
    ensures { result.now ≡ hex_digit_ascii d ∷ [] }
{
    match d {
        0 => "0",
        1 => "1",
        2 => "2",
        3 => "3",
        4 => "4",
        5 => "5",
        6 => "6",
        7 => "7",
        8 => "8",
        9 => "9",
        10 => "a",
        11 => "b",
        12 => "c",
        13 => "d",
        14 => "e",
        _ => "f",
    }
}

// A value, or a dash where there is none.
#[derive(Clone, Copy)]
pub(crate) struct OrDash<T>(pub(crate) Option<T>);

impl<T: fmt::Display> fmt::Display for OrDash<T> {
    fn fmt<W: fmt::Write>(&self, f: &mut fmt::Formatter<W>) -> fmt::Result {
        match &self.0 {
            Some(value) => write!(f, "{value}"),
            None => f.write_str("-"),
        }
    }
}
