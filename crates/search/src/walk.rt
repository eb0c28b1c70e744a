// The walk in depth: the squares below a square, in cell order.
ghost use Rattle.std.specs.Prelude.{◌≡◌, ℕ, ◌<◌, true, false};
ghost use Rattle.search.specs.Visits.{Reached, Met};

use crate::stack::{Stack, open};
use board::square::Square;

// What a walk does with the squares that it meets.
pub trait Visitor {
    // the level that the walk goes down to
    ghost floor: { Self → ℕ };
    // the number of the square of that level from which on the visitor counts on cell order
    ghost since: { Self → ℕ };
    // the square of that level with this number needs no look any more
    ghost done: { Self → ℕ → Type 0 };
    // what is so of a later state, given where the walk began
    ghost comes: { Self → Self → Type 0 };

    fn floor(&self) -> u8
        ensures lowest_level { result ≡ floor self.now };

    // Looks at a square, and says whether to go on into its quarters.
    fn meet(&mut self, s: Square) -> bool
        ensures same_floor { floor self.new ≡ floor self.old }
        ensures stops_at_floor { result ≡ true → floor self.old < s.level }
        ensures met { Reached floor since done self.old s → Met floor since done comes self.old s result self.new };
}

// Meets s, and in cell order the quarters of each square that the visitor wants to go into. A square that is not on the board, or lies below the visitor's level, is passed over.
pub fn walk<V: Visitor>(visitor: &mut V, s: Square)
    ensures same_floor { V.Visitor.floor visitor.new ≡ V.Visitor.floor visitor.old }
    ensures all_done { Reached V.Visitor.floor V.Visitor.since V.Visitor.done visitor.old s → Met V.Visitor.floor V.Visitor.since V.Visitor.done V.Visitor.comes visitor.old s false visitor.new }
{
    if !s.on_board() {
        return;
    }
    if s.level < visitor.floor() {
        return;
    }
    let mut stack = Stack::new();
    stack.push(s);
    while let Some(t) = stack.pop() {
        if visitor.meet(t) {
            open(&mut stack, t);
        }
    }
}
