//! A text that grows at its end.

ghost use Rattle.std.specs.Prelude.{◌≡◌, ◌++◌, ◌∷◌, ◌<◌, ℕ, [], List, OnOk, decimal, flat_map};
ghost use Rattle.std.specs.Fmt.{signed_decimal};
ghost use Rattle.value_text.specs.Values.{hex_octet, hex_digit};

use osi_base::{NoMemory, Octets};
use std::alloc::Global;
use std::marker::Model;

/// A text that grows at its end. Contracts see its octets.
#[derive(Drop)]
pub struct Text {
    alloc: Global,
    octets: Octets,
}

impl Model for Text {
    ghost use Rattle.std.specs.Prelude.{ℕ, List};

    ghost Value = { List ℕ };

    ghost view = { λ text. text.octets };
}

impl Text {
    /// An empty text.
    pub fn new(alloc: Global) -> Text
        ensures { result ≡ [] }
    {
        Text {
            alloc,
            octets: Octets::new(alloc),
        }
    }

    /// The octets of the text.
    pub fn into_octets(self) -> Octets
        ensures { result ≡ self }
    {
        let Text { alloc: _, octets } = self;
        octets
    }

    /// Puts these words at the end.
    pub fn put(&mut self, words: &str) -> Result<(), NoMemory>
        ensures { OnOk result (self.new ≡ self.old ++ words.now) }
    {
        self.octets.extend(words.as_bytes())
    }

    /// Puts these octets at the end as they are.
    pub fn put_raw(&mut self, octets: &[u8]) -> Result<(), NoMemory>
        ensures { OnOk result (self.new ≡ self.old ++ octets.now) }
    {
        self.octets.extend(octets)
    }

    /// Puts a number at the end, in decimal.
    pub fn put_number(&mut self, number: u64) -> Result<(), NoMemory>
        ensures { OnOk result (self.new ≡ self.old ++ decimal number) }
    {
        let digits = format!(in self.alloc; "{number}")?;
        self.octets.extend(digits.as_bytes())
    }

    /// Puts a number with its sign at the end, in decimal.
    pub fn put_signed(&mut self, number: i64) -> Result<(), NoMemory>
        ensures { OnOk result (self.new ≡ self.old ++ signed_decimal number) }
    {
        let digits = format!(in self.alloc; "{number}")?;
        self.octets.extend(digits.as_bytes())
    }

    /// Puts an octet at the end, as two upper-case digits.
    pub fn put_hex(&mut self, octet: u8) -> Result<(), NoMemory>
        ensures { OnOk result (self.new ≡ self.old ++ hex_octet octet) }
    {
        self.octets
            .extend(&[hex_digit(octet / 16), hex_digit(octet % 16)])
    }

    /// Ends the line.
    pub fn end_line(&mut self) -> Result<(), NoMemory>
        ensures { OnOk result (self.new ≡ self.old ++ 10 ∷ []) }
    {
        self.octets.push(b'\n')
    }
}

/// The hexadecimal digit, in upper case.
fn hex_digit(number: u8) -> u8
    requires { number < 16 }
    ensures { result ≡ hex_digit number }
{
    if number < 10 {
        b'0' + number
    } else {
        b'A' + (number - 10)
    }
}
