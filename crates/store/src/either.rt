// Either of two stores: the cells that one of them holds.
ghost use Rattle.std.specs.Prelude.{◌≡◌, ◌⊎◌};
ghost use Rattle.store.specs.EitherFacts.{either_facts};
ghost use Rattle.store.specs.Eithers.{Joins, joined, joined_at};
ghost use Rattle.store.specs.Exact.{HoldsSet};
ghost use Rattle.store.specs.Stores.{Holds};

use crate::store::{Answer, Store};
use board::square::Square;

// Any two stores together.
#[derive(Drop)]
pub struct Either<S1, S2> {
    pub first: S1,
    pub second: S2,
}

impl<S1: Store, S2: Store> Either<S1, S2> {
    // The cells of both.
    pub fn of(first: S1, second: S2) -> Either<S1, S2>
        ensures keeps_both { (result.first ≡ first) × (result.second ≡ second) }
        ensures answers_for_both { Joins (S1.Store.answers first) (S2.Store.answers second) (joined (S1.Store.answers result.first) (S2.Store.answers result.second)) }
        ensures holds_the_union { HoldsSet (λ c. Holds (S1.Store.answers first) c ⊎ Holds (S2.Store.answers second) c) (joined (S1.Store.answers result.first) (S2.Store.answers result.second)) }
    {
        Either { first, second }
    }
}

// What is known of a square by both answers.
fn join(first: Answer, second: Answer) -> Answer
    ensures { result ≡ joined_at first second }
{
    match (first, second) {
        (Answer::Occupied, _) | (_, Answer::Occupied) => Answer::Occupied,
        (Answer::Empty, Answer::Empty) => Answer::Empty,
        (Answer::Empty | Answer::Unknown, Answer::Empty | Answer::Unknown) => Answer::Unknown,
    }
}

// The second is asked only where the first does not say that a cell is held.
impl<S1: Store, S2: Store> Store for Either<S1, S2> {
    ghost answers = { λ e. joined (S1.Store.answers e.first) (S2.Store.answers e.second) };

    ghost facts = { λ e. either_facts (S1.Store.answers e.first) (S2.Store.answers e.second) (S1.Store.facts e.first) (S2.Store.facts e.second) };

    fn query(&self, square: Square) -> Answer {
        if !square.on_board() {
            return Answer::Empty;
        }
        let first = self.first.query(square);
        match first {
            Answer::Occupied => Answer::Occupied,
            Answer::Empty | Answer::Unknown => join(first, self.second.query(square)),
        }
    }
}
