// The printed line.
ghost use Rattle.std.specs.Prelude.{◌≡◌, IfOk, Some, string_bytes};
ghost use Rattle.board.specs.Distances.{distance as distance_of};
ghost use Rattle.job.specs.Lines.{side_letter, part_word, fault_text, line_of, Printed};
ghost use Rattle.job.specs.Faults.{part_of};

use crate::fault::{JobFault, PartFault};
use crate::films::compare_films;
use board::finding::Finding;
use board::measure::Measure;
use board::refusal::Refusal;
use board::side::Side;
use std::alloc::{AllocError, Global};
use std::fmt;

// A for the film, B for the drawing, - for neither. No Display of a side, since no side has a letter too.
fn letter(side: Option<Side>) -> &'static str
    ensures { result.now ≡ side_letter side }
{
    match side {
        Some(Side::Film) => "A",
        Some(Side::Drawing) => "B",
        None => "-",
    }
}

// The name of the part alone. No Display of a part's fault, which has a number and a place too.
fn word(fault: PartFault) -> &'static str
    ensures { result.now ≡ part_word (part_of fault) }
{
    match fault {
        PartFault::Records(_) => "records",
        PartFault::List(_) => "list",
        PartFault::Comparison(_) => "comparison",
    }
}

// The side, the part, the number and the place.
impl fmt::Display for JobFault {
    ghost output = { λ f. Some (fault_text f) };

    fn fmt<W: fmt::Write>(&self, f: &mut fmt::Formatter<W>) -> fmt::Result {
        let side = letter(self.side);
        let part = word(self.fault);
        write!(f, "{side} {part} {}", self.numbered())
    }
}

// The distance, x and y of the film's cell, x and y of the drawing's; or the word refused, side, part, number and place.
pub fn line(heap: Global, outcome: Result<Finding, JobFault>) -> Result<String, AllocError>
    ensures bytes_of_the_line { IfOk result (λ s. string_bytes s ≡ line_of outcome) }
{
    match outcome {
        Ok(found) => format!(in heap; "{found}\n"),
        Err(fault) => format!(in heap; "refused {fault}\n"),
    }
}

// The whole job: the line for the bytes of two films.
pub fn film_line<M: Measure>(heap: Global, a: &[u8], b: &[u8], m: &M) -> Result<String, AllocError>
    ensures line_of_the_outcome { IfOk result (λ s. Printed (distance_of (M.Measure.amount m.now)) a.now b.now (string_bytes s)) }
{
    // a match, since `?` leaves the function and not a closure
    let outcome = match compare_films(heap, a, b, m) {
        Ok(found) => Ok(found),
        Err(failure) => Err(failure.refusal()?),
    };
    line(heap, outcome)
}
