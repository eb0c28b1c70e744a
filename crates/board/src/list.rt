// Lists of codes: strictly rising, and not too long.
ghost use Rattle.std.specs.Prelude.{MatchResult};
ghost use Rattle.board.specs.Lists.{Rises, ListRefused, list_numbered};

use crate::refusal::{Numbered, Refusal};

// The longest list that is accepted.
pub const LONGEST: usize = 1_048_576;

// Why a list of codes is refused.
#[derive(Clone, Copy, PartialEq, Eq, Debug)]
pub enum ListFault {
    TooLong,
    // the first index whose code is not above the one before it
    NotRising(usize),
}

impl Refusal for ListFault {
    ghost numbered = { λ f. list_numbered f };

    fn numbered(&self) -> Numbered {
        match *self {
            ListFault::TooLong => Numbered::at(7, 0),
            ListFault::NotRising(index) => Numbered::at(7, index),
        }
    }
}

// Accepts a list of at most 1,048,576 codes, each above the one before it.
pub fn check_list(codes: &[u32]) -> Result<(), ListFault>
    ensures rising_or_refused { MatchResult result (λ _. Rises codes.now) (λ f. ListRefused codes.now (list_numbered f)) }
{
    if codes.len() > LONGEST {
        return Err(ListFault::TooLong);
    }
    match codes.windows(2).position(|pair| pair[1] <= pair[0]) {
        Some(before) => Err(ListFault::NotRising(before + 1)),
        None => Ok(()),
    }
}
