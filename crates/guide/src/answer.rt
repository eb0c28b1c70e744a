// The answer lines.
ghost use Rattle.std.specs.Prelude.{◌≡◌, IfOk, string_bytes};
ghost use Rattle.guide.specs.Answers.{answer_of, ran_of, refusal_of};
ghost use Rattle.comparison.specs.declared.call.Outcome.TheVariants.{Looked as of_look};

use board::refusal::Refusal;
use comparison::call::{Outcome, Sight};
use comparison::fault::Fault;
use std::alloc::{AllocError, Global};

// No Display of a sight or an outcome: the words are the script's, and the types are the comparison's.
fn look_line(heap: Global, sight: Sight) -> Result<String, AllocError>
    ensures { IfOk result (λ t. string_bytes t ≡ answer_of (of_look sight)) }
{
    let Sight {
        low,
        high,
        film,
        drawing,
        queued,
        taken,
        waiting,
    } = sight;
    format!(in heap; "look {low} {high} {film} {drawing} {queued} {taken} {waiting}\n")
}

fn refusal_line(heap: Global, fault: Fault) -> Result<String, AllocError>
    ensures { IfOk result (λ t. string_bytes t ≡ refusal_of fault) }
{
    let refused = fault.numbered();
    format!(in heap; "refused {refused}\n")
}

// The line for the outcome of a call.
pub fn answer_line(heap: Global, outcome: Outcome) -> Result<String, AllocError>
    ensures bytes_of_the_answer { IfOk result (λ s. string_bytes s ≡ answer_of outcome) }
{
    match outcome {
        Outcome::Begun => String::from_str(heap, "begun\n"),
        Outcome::Stepped => String::from_str(heap, "stepped\n"),
        Outcome::Probed => String::from_str(heap, "probed\n"),
        Outcome::Looked(sight) => look_line(heap, sight),
        Outcome::Answered(found) => format!(in heap; "result {found}\n"),
        Outcome::Refused(fault) => refusal_line(heap, fault),
    }
}

// The line for steps to the end: how many there were, or the refusal.
pub fn ran_line(heap: Global, ran: Result<u64, Fault>) -> Result<String, AllocError>
    ensures bytes_of_the_answer { IfOk result (λ s. string_bytes s ≡ ran_of ran) }
{
    match ran {
        Ok(steps) => format!(in heap; "ran {steps}\n"),
        Err(fault) => refusal_line(heap, fault),
    }
}
