// Spans of columns or rows, and the offsets between two of them.
ghost use Rattle.std.specs.Prelude.{◌≡◌, ◌<◌, ◌≤◌, MatchOption};
ghost use Rattle.board.specs.Spans.{first as first_of, last as last_of, least as least_of, greatest as greatest_of};

use crate::square::TOP;

// The last column, and the last row.
pub const EDGE: u32 = 65535;

// The columns, or the rows, of a square.
#[derive(Clone, Copy, PartialEq, Eq)]
pub struct Span {
    pub first: u16,
    pub last: u16,
    ghost ordered: { first ≤ last },
}

impl Span {
    // From first to last, ends included; none where they are out of order.
    pub fn new(first: u16, last: u16) -> Option<Span>
        ensures ends_or_none { MatchOption result (last < first) (λ s. (s.first ≡ first) × (s.last ≡ last)) }
    {
        if first > last {
            return None;
        }
        Some(Span { first, last })
    }

    // The span of a square of this level at this place of the axis. An end past the edge counts as the edge.
    pub fn of(level: u8, place: u16) -> Span
        ensures begins { result.first ≡ first_of level place }
        ensures ends { result.last ≡ last_of level place }
    {
        let level = level.min(TOP);
        let first = (place as u32) << level;
        let last = first + ((1u32 << level) - 1);
        Span {
            first: first.min(EDGE) as u16,
            last: last.min(EDGE) as u16,
        }
    }

    // The step between the nearer ends; 0 where the spans share a value.
    pub fn least(self, other: Span) -> u16
        ensures least_step { result ≡ least_of self.first self.last other.first other.last }
    {
        other.first.saturating_sub(self.last) + self.first.saturating_sub(other.last)
    }

    // The step between the farther ends.
    pub fn greatest(self, other: Span) -> u16
        ensures greatest_step { result ≡ greatest_of self.first self.last other.first other.last }
    {
        self.last
            .saturating_sub(other.first)
            .max(other.last.saturating_sub(self.first))
    }
}
