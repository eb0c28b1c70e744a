// Why a job is refused: the fault of a part, whole, with the side that it is about.
ghost use Rattle.std.specs.Prelude.{◌≡◌};
ghost use Rattle.job.specs.Faults.{part_numbered, job_numbered, side_of, placed};
ghost use Rattle.job.specs.declared.failure.Failure.TheVariants.{Refused};
ghost use Rattle.job.specs.declared.fault.PartFault.TheVariants.{Records, List, Comparison};

use crate::failure::Failure;
use crate::records::RecordsFault;
use board::list::ListFault;
use board::refusal::{Numbered, Refusal};
use board::side::Side;
use scan::fault::ScanFault;

// The fault of one part of the job.
#[derive(Clone, Copy, PartialEq, Eq, Debug)]
pub enum PartFault {
    Records(RecordsFault),
    List(ListFault),
    Comparison(ScanFault),
}

impl Refusal for PartFault {
    ghost numbered = { λ f. part_numbered f };

    fn numbered(&self) -> Numbered {
        match self {
            PartFault::Records(fault) => fault.numbered(),
            PartFault::List(fault) => fault.numbered(),
            PartFault::Comparison(fault) => fault.numbered(),
        }
    }
}

impl From<RecordsFault> for Failure<PartFault> {
    ghost from_gives = { λ f r. r ≡ Refused (Records f) };

    fn from(fault: RecordsFault) -> Failure<PartFault> {
        Failure::Refused(PartFault::Records(fault))
    }
}

impl From<ListFault> for Failure<PartFault> {
    ghost from_gives = { λ f r. r ≡ Refused (List f) };

    fn from(fault: ListFault) -> Failure<PartFault> {
        Failure::Refused(PartFault::List(fault))
    }
}

// The fault of a part, and the side that it is about; none where it is about neither.
#[derive(Clone, Copy, PartialEq, Eq, Debug)]
pub struct JobFault {
    pub side: Option<Side>,
    pub fault: PartFault,
}

impl Refusal for JobFault {
    ghost numbered = { λ f. job_numbered f };

    fn numbered(&self) -> Numbered {
        self.fault.numbered()
    }
}

impl Failure<PartFault> {
    // The same failure of the job, with the side that its fault is about.
    pub fn on(self, side: Side) -> Failure<JobFault>
        ensures placed { result ≡ placed side self }
    {
        match self {
            Failure::Refused(fault) => Failure::Refused(JobFault {
                side: Some(side),
                fault,
            }),
            Failure::NoMemory => Failure::NoMemory,
        }
    }
}

// A comparison is about a side where that side holds no cell.
impl From<ScanFault> for Failure<JobFault> {
    ghost from_gives = { λ f r. r ≡ Refused (record { side = side_of f; fault = Comparison f }) };

    fn from(fault: ScanFault) -> Failure<JobFault> {
        let side = match fault {
            ScanFault::NoCell(side) => Some(side),
            ScanFault::List(_, _) => None,
        };
        Failure::Refused(JobFault {
            side,
            fault: PartFault::Comparison(fault),
        })
    }
}
