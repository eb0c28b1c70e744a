// Refusals: each layer's fault says its number and its place.
ghost use Rattle.std.specs.Prelude.{◌≡◌, ℕ, Some};
ghost use Rattle.board.specs.Texts.{numbered_text};

use std::error::Error;
use std::fmt;

// The number and the place of a refusal, as they are printed.
#[derive(Clone, Copy, PartialEq, Eq, Debug)]
pub struct Numbered {
    pub number: u8,
    pub place: usize,
}

impl fmt::Display for Numbered {
    ghost output = { λ n. Some (numbered_text n.number n.place) };

    fn fmt<W: fmt::Write>(&self, f: &mut fmt::Formatter<W>) -> fmt::Result {
        write!(f, "{} {}", self.number, self.place)
    }
}

impl Error for Numbered {}

impl Numbered {
    // The number at the place.
    pub fn at(number: u8, place: usize) -> Numbered
        ensures both { (result.number ≡ number) × (result.place ≡ place) }
    {
        Numbered { number, place }
    }
}

// Each layer writes the map of its own cases, since the numbers are what it promises.
pub trait Refusal {
    // the number and the place of each case
    ghost numbered: { Self → ℕ × ℕ };

    // The place is 0 where the case has none.
    fn numbered(&self) -> Numbered
        ensures number_of_case { result.number ≡ (numbered self.now).0 }
        ensures place_of_case { result.place ≡ (numbered self.now).1 };

    final fn number(&self) -> u8
        ensures number_of_case { result ≡ (numbered self.now).0 }
    {
        self.numbered().number
    }

    final fn place(&self) -> usize
        ensures place_of_case { result ≡ (numbered self.now).1 }
    {
        self.numbered().place
    }
}
