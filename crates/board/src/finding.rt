// What a comparison finds.
ghost use Rattle.std.specs.Prelude.{Some};
ghost use Rattle.board.specs.Texts.{finding_text};

use crate::cell::Cell;
use crate::measure::Amount;
use std::fmt;

// The distance from A to B, and the pair that shows it: the cell of A that is farthest from B, and the cell of B that is nearest to it.
#[derive(Clone, Copy, PartialEq, Eq, Debug)]
pub struct Finding {
    pub distance: Amount,
    pub film: Cell,
    pub drawing: Cell,
}

// The distance, then the cell of A, then the cell of B.
impl fmt::Display for Finding {
    ghost output = { λ f. Some (finding_text f.distance f.film.x f.film.y f.drawing.x f.drawing.y) };

    fn fmt<W: fmt::Write>(&self, f: &mut fmt::Formatter<W>) -> fmt::Result {
        write!(f, "{} {} {}", self.distance, self.film, self.drawing)
    }
}
