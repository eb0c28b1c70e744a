// The height of a tree.
ghost use Rattle.std.specs.Prelude.{◌≡◌, ◌^◌, MatchOption};
ghost use Rattle.board.specs.Limits.{parts};
ghost use Rattle.tree.specs.Faults.{High};

use board::square::TOP;

// How many levels a tree has: 1 to 16.
#[derive(Clone, Copy)]
pub(crate) struct Height {
    pub(crate) levels: u8,
    ghost in_range: { High levels },
}

impl Height {
    // The height of so many levels; none where they are not 1 to 16.
    pub(crate) fn of(levels: u8) -> Option<Height>
        ensures { MatchOption result (High levels → ⊥) (λ h. h.levels ≡ levels) }
    {
        if levels == 0 || levels > TOP {
            return None;
        }
        Some(Height { levels })
    }

    // How many cells a square of this height has: each code is below.
    pub(crate) fn cells(self) -> u64
        ensures { result ≡ parts ^ self.levels }
    {
        1 << (2 * self.levels)
    }
}
