// The calls of a comparison, and what they answer.
use crate::fault::Fault;
use board::cell::Cell;
use board::finding::Finding;
use board::measure::Amount;

#[derive(Clone, Copy, PartialEq, Eq, Debug)]
pub enum Call {
    Begin,
    Step,
    Probe(Cell),
    Look,
    Result,
}

// What a look shows.
#[derive(Clone, Copy, PartialEq, Eq, Debug)]
pub struct Sight {
    pub low: Amount,
    pub high: Amount,
    // the witness, and its partner
    pub film: Cell,
    pub drawing: Cell,
    pub queued: u64,
    pub taken: u64,
    pub waiting: usize,
}

#[derive(Clone, Copy, PartialEq, Eq, Debug)]
pub enum Outcome {
    Begun,
    Stepped,
    Probed,
    Looked(Sight),
    Answered(Finding),
    Refused(Fault),
}
