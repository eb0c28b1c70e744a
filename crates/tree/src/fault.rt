// Why a tree, a directory or a writing is refused.
ghost use Rattle.std.specs.Prelude.{◌≡◌};
ghost use Rattle.tree.specs.Faults.{part_place, tree_numbered, writer_numbered};
ghost use Rattle.tree.specs.declared.fault.WriterFault.TheVariants.{List as OfList};

use board::list::ListFault;
use board::refusal::{Numbered, Refusal};

// The two bitmaps of a tree: all levels but the last, and the last.
#[derive(Clone, Copy, PartialEq, Eq, Debug)]
pub enum Part {
    T,
    L,
}

impl Part {
    // T comes first.
    fn place(self) -> usize
        ensures { result ≡ part_place self }
    {
        match self {
            Part::T => 0,
            Part::L => 1,
        }
    }
}

#[derive(Clone, Copy, PartialEq, Eq, Debug)]
pub enum TreeFault {
    // the height is not 1 to 16
    Height,
    // a bitmap has too many bits, or not the bytes that they need
    Size,
    // T or L is shorter or longer than its levels ask for
    Levels,
    // a block below the first level has no 1; its first bit in T followed by L
    EmptyBlock(usize),
    // a bit behind those of this bitmap is 1
    SpareBit(Part),
    // the directory has only so many counts
    ShortDirectory(usize),
    // this count of the directory is wrong
    WrongCount(usize),
}

impl Refusal for TreeFault {
    ghost numbered = { λ f. tree_numbered f };

    fn numbered(&self) -> Numbered {
        match *self {
            TreeFault::Height => Numbered::at(1, 0),
            TreeFault::Size => Numbered::at(2, 0),
            TreeFault::Levels => Numbered::at(3, 0),
            TreeFault::EmptyBlock(place) => Numbered::at(4, place),
            TreeFault::SpareBit(part) => Numbered::at(5, part.place()),
            TreeFault::ShortDirectory(place) | TreeFault::WrongCount(place) => {
                Numbered::at(6, place)
            }
        }
    }
}

#[derive(Clone, Copy, PartialEq, Eq, Debug)]
pub enum WriterFault {
    // the height is not 1 to 16
    Height,
    // the list is out of order or too long
    List(ListFault),
    // the code at this index is at or above 4 ^ height
    TooLarge(usize),
    // this bitmap needs more bytes than lent, or more bits than are allowed
    NoRoom(Part),
}

impl From<ListFault> for WriterFault {
    ghost from_gives = { λ f w. w ≡ OfList f };

    fn from(fault: ListFault) -> Self {
        Self::List(fault)
    }
}

impl Refusal for WriterFault {
    ghost numbered = { λ f. writer_numbered f };

    fn numbered(&self) -> Numbered {
        match *self {
            WriterFault::Height => Numbered::at(1, 0),
            WriterFault::List(fault) => fault.numbered(),
            WriterFault::TooLarge(index) => Numbered::at(8, index),
            WriterFault::NoRoom(part) => Numbered::at(9, part.place()),
        }
    }
}
