// The stack of a walk in depth: the squares that are still to be met, the next on top.
ghost use Rattle.std.specs.Prelude.{◌≡◌, ◌+◌, ◌≤◌, length};
ghost use Rattle.board.specs.Limits.{parts};
ghost use Rattle.board.specs.Squares.{HasQuarter};
ghost use Rattle.search.specs.Piles.{piled};
ghost use Rattle.search.specs.Stacks.{places, held, from_last};

use arrayvec::ArrayVec;
use board::square::{PARTS, Square, TOP};

// For each level below the board's, three quarters wait while the fourth is looked into; and the board.
pub const PLACES: usize = (PARTS as usize - 1) * TOP as usize + 1;

pub type Stack = ArrayVec<Square, PLACES>;

// Puts the quarters of s on the stack, the first on top.
pub(crate) fn open(stack: &mut Stack, s: Square)
    requires room { length (held stack.old) + parts ≤ places }
    requires quarters { HasQuarter s 0 }
    ensures { held stack.new ≡ piled (from_last s) parts (held stack.old) }
{
    for k in (0..PARTS).rev() {
        if let Some(quarter) = s.quarter(k) {
            stack.push(quarter);
        }
    }
}
