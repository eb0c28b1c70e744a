// Distances of cells, and the near and far amounts of squares, under any measure.
ghost use Rattle.std.specs.Prelude.{◌≡◌, ℕ, ◌<◌, ◌≤◌};
ghost use Rattle.board.specs.Distances.{distance as distance_of, near as near_of, far as far_of, Bounds};
ghost use Rattle.board.specs.Limits.{most, codes};
ghost use Rattle.board.specs.Morton.{code as coded};
ghost use Rattle.board.specs.Squares.{Inside};

use crate::cell::Cell;
use crate::measure::{Amount, Measure};
use crate::square::Square;

// The distance of two cells: the amount of their offsets.
pub fn distance<M: Measure>(m: &M, a: Cell, b: Cell) -> Amount
    ensures limited { result ≤ most }
    ensures value { result ≡ distance_of (M.Measure.amount m.now) (coded a.x a.y) (coded b.x b.y) }
{
    let dx = a.x.abs_diff(b.x);
    let dy = a.y.abs_diff(b.y);
    m.amount(dx, dy)
}

// Near and far are three lines each: one function over the step would need a contract of the step, and be no shorter.
// The amount of the least offsets of two squares: no cell of the one is nearer to a cell of the other.
pub fn near<M: Measure>(m: &M, a: Square, b: Square) -> Amount
    ensures limited { result ≤ most }
    ensures value { result ≡ near_of (M.Measure.amount m.now) a.level a.number b.level b.number }
    ensures no_cells_nearer { (p q : ℕ) → p < codes → q < codes → Inside a.level a.number p → Inside b.level b.number q → result ≤ distance_of (M.Measure.amount m.now) p q }
{
    let dx = a.columns().least(b.columns());
    let dy = a.rows().least(b.rows());
    m.amount(dx, dy)
}

// The amount of the greatest offsets of two squares: no cell of the one is farther from a cell of the other.
pub fn far<M: Measure>(m: &M, a: Square, b: Square) -> Amount
    ensures limited { result ≤ most }
    ensures value { result ≡ far_of (M.Measure.amount m.now) a.level a.number b.level b.number }
    ensures no_cells_farther { (p q : ℕ) → p < codes → q < codes → Inside a.level a.number p → Inside b.level b.number q → distance_of (M.Measure.amount m.now) p q ≤ result }
{
    let dx = a.columns().greatest(b.columns());
    let dy = a.rows().greatest(b.rows());
    m.amount(dx, dy)
}

// What near and far amounts say of distances, under every measure.
pub fn amounts_are_bounds<M: Measure>(_m: &M)
    ensures bounds { Bounds (M.Measure.amount _m.now) }
{}
