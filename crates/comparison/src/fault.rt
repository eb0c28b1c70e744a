// Why a call of a comparison is refused.
ghost use Rattle.comparison.specs.Faults.{fault_numbered};

use board::refusal::{Numbered, Refusal};

#[derive(Clone, Copy, PartialEq, Eq, Debug)]
pub enum Fault {
    // A holds no cell
    NoFilmCell,
    // B holds no cell
    NoDrawingCell,
    // the list of suspects has no place
    NoSuspectPlace,
    // the list of neighbours has no place
    NoNeighbourPlace,
    // A does not hold the probed cell
    NotHeld,
    // a step, and nothing waits
    NothingWaits,
    // the comparison was never begun
    NeverBegun,
    // a result, and so many squares wait
    Waits(usize),
    // no place for a square that is finished in depth; it never comes
    StackFull,
}

impl Refusal for Fault {
    ghost numbered = { λ f. fault_numbered f };

    fn numbered(&self) -> Numbered {
        match *self {
            Fault::NoFilmCell => Numbered::at(11, 0),
            Fault::NoDrawingCell => Numbered::at(12, 0),
            Fault::NoSuspectPlace => Numbered::at(13, 0),
            Fault::NoNeighbourPlace => Numbered::at(13, 1),
            Fault::NotHeld => Numbered::at(15, 0),
            Fault::NothingWaits | Fault::NeverBegun => Numbered::at(16, 0),
            Fault::Waits(count) => Numbered::at(17, count),
            Fault::StackFull => Numbered::at(18, 0),
        }
    }
}
