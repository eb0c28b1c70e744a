// Rectangles of cells, and where a square lies to one.
ghost use Rattle.std.specs.Prelude.{◌≡◌, ℕ, ◌<◌, IfOk, IfErr, MatchResult};
ghost use Rattle.board.specs.Limits.{codes, edge};
ghost use Rattle.board.specs.Morton.{x_of, y_of};
ghost use Rattle.board.specs.Spans.{first, last};
ghost use Rattle.store.specs.Exact.{Exactly, HoldsSet};
ghost use Rattle.store.specs.Places.{Placed};
ghost use Rattle.store.specs.RectangleFacts.{rectangle_facts};
ghost use Rattle.store.specs.Rectangles.{Covers, Ends, OutOfOrder, Refuses, both_axes, filled, lies, located, meets, rectangle_numbered};
ghost use Rattle.store.specs.Stores.{Holds, StoreFacts};

use crate::store::{Answer, Store};
use board::refusal::{Numbered, Refusal};
use board::span::{EDGE, Span};
use board::square::Square;

// All cells of some columns and some rows, ends included. The order of the ends is in the type of a span.
#[derive(Clone, Copy, PartialEq, Eq)]
pub struct Rectangle {
    // from west to east
    pub columns: Span,
    // from south to north
    pub rows: Span,
}

// Where a square lies to a set of cells.
#[derive(Clone, Copy, PartialEq, Eq, Debug)]
pub enum Place {
    // it has no cell of the set, or is not on the board
    Apart,
    // it has a cell of the set and one that is not
    Across,
    // all its cells are in the set
    Within,
}

// Why a rectangle is refused.
#[derive(Clone, Copy, PartialEq, Eq, Debug)]
pub enum RectangleFault {
    WestAboveEast,
    SouthAboveNorth,
}

impl Refusal for RectangleFault {
    ghost numbered = { λ f. rectangle_numbered f };

    fn numbered(&self) -> Numbered {
        Numbered::at(14, 0)
    }
}

// Whether two spans share a value.
fn spans_meet(a: Span, b: Span) -> bool
    ensures { result ≡ meets a.first a.last b.first b.last }
{
    a.first <= b.last && b.first <= a.last
}

// Whether all values of a are values of b.
fn span_lies_in(a: Span, b: Span) -> bool
    ensures { result ≡ lies a.first a.last b.first b.last }
{
    b.first <= a.first && a.last <= b.last
}

impl Rectangle {
    // All cells from west to east and from south to north.
    pub fn new(west: u16, south: u16, east: u16, north: u16) -> Result<Rectangle, RectangleFault>
        ensures ends_or_refused { MatchResult result (Ends west south east north) (λ f. Refuses west south east north (rectangle_numbered f)) }
        ensures says_which { IfErr result (OutOfOrder west south east north) }
        ensures exact { IfOk result (λ k. Exactly (Covers k) (filled k)) }
        ensures holds_its_cells { IfOk result (λ k. HoldsSet (Covers k) (filled k)) }
    {
        let columns = Span::new(west, east).ok_or(RectangleFault::WestAboveEast)?;
        let rows = Span::new(south, north).ok_or(RectangleFault::SouthAboveNorth)?;
        Ok(Rectangle { columns, rows })
    }

    // The whole board.
    pub fn board() -> Rectangle
        ensures ends { Ends 0 0 edge edge result }
        ensures holds_every_cell { (c : ℕ) → c < codes → Holds (filled result) c }
        ensures facts_can_be_met { StoreFacts (filled result) }
    {
        let all = Span {
            first: 0,
            last: EDGE as u16,
        };
        Rectangle {
            columns: all,
            rows: all,
        }
    }

    // The cells of a square of the board.
    fn block(square: Square) -> Rectangle
        ensures { let l = square.level in let n = square.number in Ends (first l (x_of n)) (first l (y_of n)) (last l (x_of n)) (last l (y_of n)) result }
    {
        Rectangle {
            columns: square.columns(),
            rows: square.rows(),
        }
    }

    // Whether the two share a cell.
    // It and the next are a line each; one function that took the test of the spans would have a longer contract than both.
    fn meets(self, other: Rectangle) -> bool
        ensures { result ≡ both_axes meets self other }
    {
        spans_meet(self.columns, other.columns) && spans_meet(self.rows, other.rows)
    }

    // Whether all cells are cells of the other.
    fn lies_in(self, other: Rectangle) -> bool
        ensures { result ≡ both_axes lies self other }
    {
        span_lies_in(self.columns, other.columns) && span_lies_in(self.rows, other.rows)
    }

    // Where the square lies.
    pub fn place_of(&self, square: Square) -> Place
        ensures value { result ≡ located self.now square.level square.number }
        ensures by_cells { Placed (Covers self.now) square.level square.number result }
    {
        if !square.on_board() {
            return Place::Apart;
        }
        let block = Rectangle::block(square);
        if !block.meets(*self) {
            Place::Apart
        } else if block.lies_in(*self) {
            Place::Within
        } else {
            Place::Across
        }
    }
}

// A rectangle is a store that knows each square.
impl Store for Rectangle {
    ghost answers = { λ r. filled r };

    ghost facts = { λ r. rectangle_facts r };

    fn query(&self, square: Square) -> Answer {
        match self.place_of(square) {
            Place::Apart => Answer::Empty,
            Place::Across | Place::Within => Answer::Occupied,
        }
    }
}
