// Cells, and their codes: the bits of x and of y by turns.
ghost use Rattle.std.specs.Prelude.{◌≡◌, Some, refl};
ghost use Rattle.board.specs.CellOrder.{by_code, CellOrderIsCodeOrder};
ghost use Rattle.board.specs.Morton.{evens, spaced, x_of, y_of, code as coded, Interleaved, CodesAreExact};
ghost use Rattle.board.specs.CodeFacts.Ordered.{total as cells_total, ties as cells_tie};
ghost use Rattle.board.specs.Texts.{pair_text};
ghost use Rattle.std.specs.Cmp.{partial_order_from_agreeing_total};

use std::cmp::Ordering;
use std::fmt;

// A cell: x grows east, y grows north.
#[derive(Clone, Copy, PartialEq, Eq, Debug)]
pub struct Cell {
    pub x: u16,
    pub y: u16,
}

// Named, and not `From`: a u32 is also the number of a square of any level.
impl Cell {
    // The code has the bits of x and y by turns, the lowest of x first.
    pub fn code(self) -> u32
        ensures value { result ≡ coded self.x self.y }
        ensures bits_by_turns { Interleaved self.x self.y result }
    {
        spread(self.x) | spread(self.y) << 1
    }

    // The cell that has this code.
    pub fn from_code(code: u32) -> Cell
        ensures column { result.x ≡ x_of code }
        ensures row { result.y ≡ y_of code }
        ensures bits_by_turns { Interleaved result.x result.y code }
    {
        Cell {
            x: gather(code),
            y: gather(code >> 1),
        }
    }
}

// The column, and then the row.
impl fmt::Display for Cell {
    ghost output = { λ c. Some (pair_text c.x c.y) };

    fn fmt<W: fmt::Write>(&self, f: &mut fmt::Formatter<W>) -> fmt::Result {
        write!(f, "{} {}", self.x, self.y)
    }
}

// Cells are ordered as their codes are, which a derive cannot say: it would go by columns.
impl PartialOrd for Cell {
    ghost partial_cmp = { λ x y. Some (by_code x y) };

    ghost laws = { partial_order_from_agreeing_total by_code cells_total (λ _ _. refl) cells_tie };

    fn partial_cmp(&self, other: &Cell) -> Option<Ordering> {
        Some(self.cmp(other))
    }
}

impl Ord for Cell {
    ghost cmp = { by_code };

    ghost total = { cells_total };

    ghost matches_partial_cmp = { λ _ _. refl };

    ghost matches_eq = { cells_tie };

    fn cmp(&self, other: &Cell) -> Ordering {
        let code = self.code();
        code.cmp(&other.code())
    }
}

// The bits of x, each with a zero bit above it.
fn spread(x: u16) -> u32
    ensures { result ≡ spaced x }
{
    let x = x as u32;
    let x = (x | x << 8) & 0x00FF_00FF;
    let x = (x | x << 4) & 0x0F0F_0F0F;
    let x = (x | x << 2) & 0x3333_3333;
    (x | x << 1) & 0x5555_5555
}

// Every second bit of x, from bit 0 on.
fn gather(x: u32) -> u16
    ensures { result ≡ evens x }
{
    let x = x & 0x5555_5555;
    let x = (x | x >> 1) & 0x3333_3333;
    let x = (x | x >> 2) & 0x0F0F_0F0F;
    let x = (x | x >> 4) & 0x00FF_00FF;
    let x = (x | x >> 8) & 0x0000_FFFF;
    x as u16
}

// A cell has one code and a code one cell, and the order of cells is total and is that of their codes.
pub fn codes_are_exact()
    ensures codes { CodesAreExact }
    ensures order { CellOrderIsCodeOrder }
{}
