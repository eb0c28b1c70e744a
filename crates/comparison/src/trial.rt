// Trying cells of A: which of them improve the figures.
ghost use Rattle.std.specs.Prelude.{◌≡◌, ℕ};
ghost use Rattle.board.specs.Squares.{OnBoard, Inside};
ghost use Rattle.comparison.specs.Calls.{Tried};
ghost use Rattle.comparison.specs.Trials.{over, Stays, floor, since, done, comes};
ghost use Rattle.comparison.specs.World.{InFilm};

use crate::ground::Ground;
use crate::record::Figures;
use board::cell::Cell;
use board::measure::Measure;
use board::square::Square;
use search::walk::{Visitor, walk};
use store::store::{Answer, Store};

// What the cells are tried over, and the figures so far.
#[derive(Drop)]
pub struct Trial<'a, A, B, M> {
    pub ground: Ground<'a, A, B, M>,
    // The square whose cells are tried. It stands here, since the proofs cannot follow a walk that is lent a struct with a `&mut` of the trial.
    pub square: Square,
    pub figures: Figures,
}

impl<'a, A: Store, B: Store, M: Measure> Trial<'a, A, B, M> {
    // Tries the cell with this code.
    pub(crate) fn try_cell(&mut self, code: u32)
        ensures stays { Stays A.Store.answers B.Store.answers M.Measure.amount self.old.ground self.new.ground }
        ensures same_square { self.new.square ≡ self.old.square }
        ensures tried { (n : ℕ) → InFilm (over A.Store.answers B.Store.answers M.Measure.amount n self.old.ground) code → Tried (over A.Store.answers B.Store.answers M.Measure.amount n self.old.ground) (λ x. x ≡ code) self.old.figures self.new.figures }
    {
        let cell = self.ground.figures_of(code);
        if self.figures.improved_by(cell.low, code as u64) {
            self.figures = cell;
        }
    }

    // Tries the cells of a square, in depth.
    // The square is on the board by the call, since a query takes any square and its type cannot say so.
    pub(crate) fn try_square(&mut self, s: Square)
        requires on_board { OnBoard s.level s.number }
        ensures stays { Stays A.Store.answers B.Store.answers M.Measure.amount self.old.ground self.new.ground }
        ensures tried { (n : ℕ) → Tried (over A.Store.answers B.Store.answers M.Measure.amount n self.old.ground) (Inside s.level s.number) self.old.figures self.new.figures }
    {
        self.square = s;
        walk(self, s);
    }
}

// On a walk, the cells of the square are tried.
impl<'a, A: Store, B: Store, M: Measure> Visitor for Trial<'a, A, B, M> {
    ghost floor = { floor A.Store.answers B.Store.answers M.Measure.amount };

    ghost since = { since A.Store.answers B.Store.answers M.Measure.amount };

    ghost done = { done A.Store.answers B.Store.answers M.Measure.amount };

    ghost comes = { comes A.Store.answers B.Store.answers M.Measure.amount };

    fn floor(&self) -> u8 {
        0
    }

    fn meet(&mut self, s: Square) -> bool {
        let answer = self.ground.film.query(s);
        if s.level > 0 {
            return answer != Answer::Empty;
        }
        if !answer.counts() {
            return false;
        }
        if !self.square.holds(Cell::from_code(s.number)) {
            return false;
        }
        self.try_cell(s.number);
        false
    }
}
