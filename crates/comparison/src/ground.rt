// What keys are found over: the stores and the measure.
ghost use Rattle.std.specs.Prelude.{◌≡◌, Decides};
ghost use Rattle.search.specs.Keys.{Keyed};
ghost use Rattle.store.specs.declared.store.Answer.TheVariants.{Empty as empty_answer};
ghost use Rattle.comparison.specs.Trials.{Stays};

use crate::record::Figures;
use crate::suspect::Suspect;
use board::measure::Measure;
use board::square::Square;
use search::nearest::nearest;
use search::neighbour::Neighbour;
use search::waiting::WaitingList;
use store::store::{Answer, Store};

// The stores, the measure, and the list for the search of keys.
#[derive(Drop)]
pub struct Ground<'a, A, B, M> {
    pub film: A,
    pub drawing: B,
    pub measure: M,
    pub neighbours: WaitingList<'a, Neighbour>,
}

impl<'a, A: Store, B: Store, M: Measure> Ground<'a, A, B, M> {
    // Whether A calls a square empty.
    pub(crate) fn film_empty_at(&self, s: Square) -> bool
        ensures decides { Decides result (A.Store.answers self.now.film s.level s.number ≡ empty_answer) }
    {
        self.film.query(s) == Answer::Empty
    }

    // A square with its key and its partner.
    pub(crate) fn suspect_of(&mut self, square: Square) -> Suspect
        ensures keyed { Keyed (M.Measure.amount self.old.measure) (B.Store.answers self.old.drawing) result.square.level result.square.number result.key result.partner }
        ensures of_square { result.square ≡ square }
        ensures stays { Stays A.Store.answers B.Store.answers M.Measure.amount self.old self.new }
    {
        let (key, partner) = nearest(square, &self.drawing, &self.measure, &mut self.neighbours);
        Suspect {
            key,
            square,
            partner,
        }
    }

    // The figures of the cell of A with this code.
    pub(crate) fn figures_of(&mut self, film: u32) -> Figures
        ensures keyed { Keyed (M.Measure.amount self.old.measure) (B.Store.answers self.old.drawing) 0 film result.low result.drawing }
        ensures witness { result.film ≡ film }
        ensures stays { Stays A.Store.answers B.Store.answers M.Measure.amount self.old self.new }
    {
        Figures::at_cell(self.suspect_of(Square::cell(film)))
    }
}
