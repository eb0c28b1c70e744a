// Windows: the cells of a store that lie in a rectangle.
ghost use Rattle.std.specs.Prelude.{◌≡◌};
ghost use Rattle.store.specs.Exact.{HoldsSet};
ghost use Rattle.store.specs.Rectangles.{Covers};
ghost use Rattle.store.specs.Stores.{Holds};
ghost use Rattle.store.specs.WindowFacts.{windowed_facts};
ghost use Rattle.store.specs.Windows.{Sees, blurred, windowed};

use crate::rectangle::{Place, Rectangle};
use crate::store::{Answer, Store};
use board::square::Square;

// A rectangle over any store.
#[derive(Drop)]
pub struct Window<S> {
    pub rectangle: Rectangle,
    pub store: S,
}

impl<S: Store> Window<S> {
    // The cells of the store that the rectangle has.
    pub fn over(rectangle: Rectangle, store: S) -> Window<S>
        ensures keeps_both { (result.rectangle ≡ rectangle) × (result.store ≡ store) }
        ensures answers_by_place { Sees (Covers rectangle) (S.Store.answers store) (windowed result.rectangle (S.Store.answers result.store)) }
        ensures holds_cells_inside { HoldsSet (λ c. Holds (S.Store.answers store) c × Covers rectangle c) (windowed result.rectangle (S.Store.answers result.store)) }
    {
        Window { rectangle, store }
    }
}

// What is left of an answer where the edge goes through the square.
fn across(below: Answer) -> Answer
    ensures { result ≡ blurred below }
{
    match below {
        Answer::Empty => Answer::Empty,
        Answer::Occupied | Answer::Unknown => Answer::Unknown,
    }
}

// Inside it answers as below, outside it is empty, and across the edge it knows only what is empty below.
impl<S: Store> Store for Window<S> {
    ghost answers = { λ w. windowed w.rectangle (S.Store.answers w.store) };

    ghost facts = { λ w. windowed_facts w.rectangle (S.Store.answers w.store) (S.Store.facts w.store) };

    fn query(&self, square: Square) -> Answer {
        match self.rectangle.place_of(square) {
            Place::Apart => Answer::Empty,
            Place::Across => across(self.store.query(square)),
            Place::Within => self.store.query(square),
        }
    }
}
