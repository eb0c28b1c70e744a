// Lists of codes as stores.
ghost use Rattle.std.specs.Prelude.{◌≡◌, ℕ, [], length, MatchResult};
ghost use Rattle.board.specs.Lists.{Has, ListRefused, Rises, Rising, list_numbered};
ghost use Rattle.store.specs.Exact.{Exactly, HoldsSet, exact};
ghost use Rattle.store.specs.ExactFacts.{exact_facts};
ghost use Rattle.store.specs.declared.store.Answer.TheVariants.{Empty as empty_answer};

use crate::store::{Answer, Store};
use board::list::{ListFault, check_list};
use board::square::Square;

// Strictly rising codes in the caller's memory.
#[derive(Clone, Copy)]
pub struct CodeList<'a> {
    codes: &'a [u32],
    ghost rising: { Rising codes.now (length codes.now) },
}

impl<'a> CodeList<'a> {
    // A list with no code, to be filled by `open`.
    pub fn empty() -> CodeList<'a>
        ensures no_code { result.codes.now ≡ [] }
        ensures every_square_is_empty { (l n : ℕ) → exact result.codes.now l n ≡ empty_answer }
    {
        CodeList { codes: &[] }
    }

    // Fills the list with codes that rise and are not too many; a refused list leaves it as it was.
    pub fn open(&mut self, codes: &'a [u32]) -> Result<(), ListFault>
        ensures opened_or_as_before { MatchResult result (λ _. Rises codes.now × (self.new.codes.now ≡ codes.now)) (λ f. ListRefused codes.now (list_numbered f) × (self.new ≡ self.old)) }
        ensures exact { Exactly (Has self.new.codes.now) (exact self.new.codes.now) }
        ensures holds_its_codes { HoldsSet (Has self.new.codes.now) (exact self.new.codes.now) }
    {
        *self = CodeList::try_from(codes)?;
        Ok(())
    }
}

// The list of codes that rise and are not too many.
impl<'a> TryFrom<&'a [u32]> for CodeList<'a> {
    type Error = ListFault;

    ghost try_from_gives = { λ codes r. MatchResult r (λ s. Rises codes.now × (s.codes.now ≡ codes.now)) (λ f. ListRefused codes.now (list_numbered f)) };

    fn try_from(codes: &'a [u32]) -> Result<CodeList<'a>, ListFault> {
        check_list(codes)?;
        Ok(CodeList { codes })
    }
}

// The first code that is not below the square is one of its codes, or none is.
impl Store for CodeList<'_> {
    ghost answers = { λ s. exact s.codes.now };

    ghost facts = { λ s. exact_facts s.codes.now };

    fn query(&self, square: Square) -> Answer {
        let Some(first) = square.first_code() else {
            return Answer::Empty;
        };
        // the library's binary search: its partition point, asked one by one, takes a fifth longer
        let place = self
            .codes
            .binary_search(&first)
            .unwrap_or_else(|place| place);
        if let Some(code) = self.codes.get(place)
            && (*code as u64) >> (2 * square.level) == square.number as u64
        {
            Answer::Occupied
        } else {
            Answer::Empty
        }
    }
}
