// What a comparison keeps of its search.
ghost use Rattle.std.specs.Prelude.{◌≡◌, ◌≤◌, Decides};
ghost use Rattle.board.specs.Findings.{code_of};
ghost use Rattle.comparison.specs.Calls.{Improves, counted};

use crate::suspect::Suspect;
use board::cell::Cell;
use board::finding::Finding;
use board::measure::Amount;

// Both counts stop here.
pub const COUNT_LIMIT: u64 = 1_099_511_627_776;

// Low, and the pair that shows it: the witness and its partner.
// By codes and not as a Finding: a code is compared with the first codes of squares.
#[derive(Clone, Copy, PartialEq, Eq, Default, Debug)]
pub struct Figures {
    pub low: Amount,
    pub film: u32,
    pub drawing: u32,
}

// Since the comparison was begun: how many squares were queued, and how many taken.
#[derive(Clone, Copy)]
pub struct Record {
    pub queued: u64,
    pub taken: u64,
    ghost stops: { (queued ≤ 1099511627776) × (taken ≤ 1099511627776) },
}

impl Figures {
    // Those of a square that is one cell.
    pub(crate) fn at_cell(s: Suspect) -> Figures
        ensures value { result ≡ record { low = s.key; film = s.square.number; drawing = s.partner } }
    {
        Figures {
            low: s.key,
            film: s.square.number,
            drawing: s.partner,
        }
    }

    // Low as a distance, with the cells that show it.
    pub(crate) fn finding(self) -> Finding
        ensures distance { result.distance ≡ self.low }
        ensures film { code_of result.film ≡ self.film }
        ensures drawing { code_of result.drawing ≡ self.drawing }
    {
        Finding {
            distance: self.low,
            film: Cell::from_code(self.film),
            drawing: Cell::from_code(self.drawing),
        }
    }

    // Whether a square with this key and first code improves the figures.
    pub fn improved_by(self, key: Amount, first: u64) -> bool
        ensures decides { Decides result (Improves self key first) }
    {
        key > self.low || (key == self.low && first < self.film as u64)
    }
}

impl Record {
    // One square more was taken, and so many were queued.
    pub(crate) fn stepped(self, queued: u64) -> Record
        ensures queued { result.queued ≡ counted self.queued queued }
        ensures taken { result.taken ≡ counted self.taken 1 }
    {
        Record {
            queued: count_more(self.queued, queued),
            taken: count_on(self.taken),
        }
    }
}

// One more, up to the limit.
pub fn count_on(n: u64) -> u64
    ensures value { result ≡ counted n 1 }
{
    count_more(n, 1)
}

// So many more, up to the limit.
pub fn count_more(n: u64, more: u64) -> u64
    ensures value { result ≡ counted n more }
{
    n.saturating_add(more).min(COUNT_LIMIT)
}
