// Squares of B that wait to be looked into, and their order.
ghost use Rattle.std.specs.Prelude.{◌≡◌};
ghost use Rattle.search.specs.Neighbours.{before, NeighboursAreOrdered};

use board::measure::Amount;
use board::square::Square;

// A square of B with its near amount. The smaller amount comes first, then the square that comes first.
#[derive(Clone, Copy, Default, PartialEq, Eq, PartialOrd, Ord, Debug)]
pub struct Neighbour {
    pub amount: Amount,
    pub square: Square,
}

// The order of neighbours is total, goes by amount, first code and level, and is the one that the type has.
pub fn neighbours_are_ordered()
    ensures order { NeighboursAreOrdered }
    ensures of_the_type { (x y : Neighbour) → ⟦<Neighbour as Ord>⟧.cmp x y ≡ before x y }
{}
