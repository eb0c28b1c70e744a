// How many cells of a tree lie in a square.
ghost use Rattle.std.specs.Prelude.{◌≡◌, ◌^◌, ◌≤◌};
ghost use Rattle.board.specs.Limits.{parts};
ghost use Rattle.tree.specs.Held.{cells_of};
ghost use Rattle.tree.specs.Tallies.{tally_of};

use crate::reader::Tree;
use board::square::{PARTS, Square};

impl Tree<'_> {
    // The number of cells held in the square; 0 where it is not on the board.
    pub fn tally(&self, square: Square) -> u64
        ensures cells_in_the_square { result ≡ tally_of (cells_of self.now) square.level square.number }
        ensures at_most_all { result ≤ parts ^ square.level }
    {
        if !self.shows(square) {
            return 0;
        }
        if square.level == 0 {
            return 1;
        }
        // a loop, since a closure may not call the function that it stands in
        let mut sum = 0;
        for k in 0..PARTS {
            if let Some(quarter) = square.quarter(k) {
                sum += self.tally(quarter);
            }
        }
        sum
    }
}
