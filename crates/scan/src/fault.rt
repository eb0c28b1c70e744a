// Why a scan is refused.
ghost use Rattle.scan.specs.Faults.{scan_numbered};

use board::list::ListFault;
use board::refusal::{Numbered, Refusal};
use board::side::Side;

#[derive(Clone, Copy, PartialEq, Eq, Debug)]
pub enum ScanFault {
    // the list of this side is out of order or too long
    List(Side, ListFault),
    // this side holds no cell
    NoCell(Side),
}

impl Refusal for ScanFault {
    ghost numbered = { λ f. scan_numbered f };

    fn numbered(&self) -> Numbered {
        match self {
            ScanFault::List(_, fault) => fault.numbered(),
            ScanFault::NoCell(Side::Film) => Numbered::at(11, 0),
            ScanFault::NoCell(Side::Drawing) => Numbered::at(12, 0),
        }
    }
}
