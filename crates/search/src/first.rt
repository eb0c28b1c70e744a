// The first cell of a store.
ghost use Rattle.std.specs.Prelude.{◌≡◌, MatchOption};
ghost use Rattle.board.specs.Findings.{code_of};
ghost use Rattle.search.specs.Firsts.{NoneHeld, FirstHeld, FoundFirst, Searched};

use crate::walk::{Visitor, walk};
use board::cell::Cell;
use board::square::Square;
use store::store::{Answer, Store};

// Looks for the first cell: the code that was found so far.
#[derive(Drop)]
struct Scout<'a, A> {
    store: &'a A,
    first: Option<u32>,
}

impl<'a, A: Store> Visitor for Scout<'a, A> {
    ghost floor = { λ _. 0 };

    ghost since = { λ _. 0 };

    ghost done = { λ v c. Searched (A.Store.answers v.store.now) v.first c };

    ghost comes = { λ u v. (v.store ≡ u.store) × (FoundFirst (A.Store.answers u.store.now) u.first → FoundFirst (A.Store.answers u.store.now) v.first) };

    fn floor(&self) -> u8 {
        0
    }

    fn meet(&mut self, s: Square) -> bool {
        if self.first.is_some() {
            return false;
        }
        let answer = self.store.query(s);
        if answer == Answer::Empty {
            return false;
        }
        if s.level > 0 {
            return true;
        }
        if answer.counts() {
            self.first = Some(s.number);
        }
        false
    }
}

// The first cell that the store holds, in cell order; none where it holds no cell.
pub fn first_cell<A: Store>(store: &A) -> Option<Cell>
    ensures first_or_none { MatchOption result (NoneHeld (A.Store.answers store.now)) (λ c. FirstHeld (A.Store.answers store.now) (code_of c)) }
{
    let mut scout = Scout { store, first: None };
    walk(&mut scout, Square::BOARD);
    scout.first.map(|code| Cell::from_code(code))
}
