// Squares of cells, and their quarters.
ghost use Rattle.std.specs.Prelude.{◌≡◌, ℕ, ◌+◌, ◌*◌, ◌^◌, ◌≤◌, Some, refl, IfSome, Decides, MatchOption};
ghost use Rattle.board.specs.Limits.{parts};
ghost use Rattle.board.specs.Morton.{x_of, y_of, code as coded};
ghost use Rattle.board.specs.Spans.{first as first_of, last as last_of, Lies, SquaresAreBlocks};
ghost use Rattle.board.specs.SquareOrder.{SquaresAreOrdered, by_place, first_code, squares_total};
ghost use Rattle.board.specs.SquareOrderFacts.{square_ties};
ghost use Rattle.board.specs.Squares.{OnBoard, Inside, HasQuarter};
ghost use Rattle.std.specs.Cmp.{partial_order_from_agreeing_total};

use crate::cell::Cell;
use crate::span::Span;
use std::cmp::Ordering;

// The level of the whole board; a cell is a square of level 0.
pub const TOP: u8 = 16;

// How many quarters a square has, in order: southwest, southeast, northwest, northeast.
pub const PARTS: u32 = 4;

// The cells whose code divided by 4 ^ level, fraction dropped, is the number. By default it is the first cell.
#[derive(Clone, Copy, Default, PartialEq, Eq, Debug)]
pub struct Square {
    pub level: u8,
    pub number: u32,
}

impl Square {
    // The whole board.
    pub const BOARD: Square = Square {
        level: TOP,
        number: 0,
    };

    // The square of one cell.
    pub fn cell(code: u32) -> Square
        ensures one_cell { (result.level ≡ 0) × (result.number ≡ code) }
    {
        Square {
            level: 0,
            number: code,
        }
    }

    pub fn on_board(self) -> bool
        ensures decides { Decides result (OnBoard self.level self.number) }
    {
        self.level <= TOP && (self.number as u64) < 1u64 << (2 * (TOP - self.level))
    }

    // The quarter k, one level lower; none where the square is a cell or not on the board, or k is 4 or more.
    pub fn quarter(self, k: u32) -> Option<Square>
        ensures quarter_or_none { MatchOption result (HasQuarter self k → ⊥) (λ q. HasQuarter self k × (q.level + 1 ≡ self.level) × (q.number ≡ parts * self.number + k)) }
    {
        if self.level == 0 || k >= PARTS || !self.on_board() {
            return None;
        }
        Some(Square {
            level: self.level - 1,
            number: PARTS * self.number + k,
        })
    }

    // The code of the first cell; none where the square is not on the board.
    pub fn first_code(self) -> Option<u32>
        ensures place { MatchOption result (OnBoard self.level self.number → ⊥) (λ c. OnBoard self.level self.number × (c ≡ self.number * parts ^ self.level)) }
        ensures first_of_its_cells { IfSome result (λ c. Inside self.level self.number c × ((b : ℕ) → Inside self.level self.number b → c ≤ b)) }
    {
        if !self.on_board() {
            return None;
        }
        Some(self.start() as u32)
    }

    // The same of any square: a level above the board's counts as the board's.
    pub fn start(self) -> u64
        ensures value { result ≡ first_code self }
    {
        (self.number as u64) << (2 * self.level.min(TOP))
    }

    // Whether the cell is one of the square's.
    pub fn holds(self, cell: Cell) -> bool
        ensures by_code { Decides result (Inside self.level self.number (coded cell.x cell.y)) }
        ensures by_columns_and_rows { Decides result (Lies self.level self.number (coded cell.x cell.y)) }
    {
        let level = self.level.min(TOP);
        (cell.code() as u64) >> (2 * level) == self.number as u64
    }

    // An axis each, and a line: one function would take the axis, and take it apart again.
    // From west to east. An end past the edge of the board counts as the edge.
    pub fn columns(self) -> Span
        ensures west { result.first ≡ first_of self.level (x_of self.number) }
        ensures east { result.last ≡ last_of self.level (x_of self.number) }
    {
        Span::of(self.level, Cell::from_code(self.number).x)
    }

    // From south to north.
    pub fn rows(self) -> Span
        ensures south { result.first ≡ first_of self.level (y_of self.number) }
        ensures north { result.last ≡ last_of self.level (y_of self.number) }
    {
        Span::of(self.level, Cell::from_code(self.number).y)
    }
}

// Squares are ordered by the code of their first cell, the larger first: a square before its quarters. A derive would go by levels.
impl PartialOrd for Square {
    ghost partial_cmp = { λ x y. Some (by_place x y) };

    ghost laws = { partial_order_from_agreeing_total by_place squares_total (λ _ _. refl) square_ties };

    fn partial_cmp(&self, other: &Square) -> Option<Ordering> {
        Some(self.cmp(other))
    }
}

impl Ord for Square {
    ghost cmp = { by_place };

    ghost total = { squares_total };

    ghost matches_partial_cmp = { λ _ _. refl };

    ghost matches_eq = { square_ties };

    fn cmp(&self, other: &Square) -> Ordering {
        let by_level = other.level.cmp(&self.level);
        self.start().cmp(&other.start()).then(by_level)
    }
}

// The order of squares is total, and goes by first code and level.
pub fn squares_are_ordered()
    ensures order { SquaresAreOrdered }
{}

// A square is a block of cells: those of its columns and rows, and no other.
pub fn squares_are_blocks()
    ensures blocks { SquaresAreBlocks }
{}
