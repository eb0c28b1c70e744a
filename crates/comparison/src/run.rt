// Lists of calls: any of them in order, and steps to the end.
ghost use Rattle.std.specs.Prelude.{◌≡◌, IfOk};
ghost use Rattle.comparison.specs.Comparisons.{Did, Ran, told};
ghost use Rattle.comparison.specs.Examples.{RunsExist};
ghost use Rattle.comparison.specs.Law.{RunsKeepTheLaw, RunsAreOne};

use crate::call::{Call, Outcome};
use crate::comparison::Comparison;
use crate::fault::Fault;
use board::measure::Measure;
use std::alloc::{AllocError, Global};
use store::store::Store;

// What every list of calls keeps, and that one list of calls has one outcome.
pub fn runs_are_lawful()
    ensures law { RunsKeepTheLaw }
    ensures no_choice { RunsAreOne }
    ensures runs_exist { RunsExist }
{}

impl<'a, A: Store, B: Store, M: Measure> Comparison<'a, A, B, M> {
    // Makes one call.
    pub fn call(&mut self, call: Call) -> Outcome
        ensures by_the_rule { Did A.Store.answers B.Store.answers M.Measure.amount self.old call result self.new }
    {
        self.answer(call).unwrap_or_else(Outcome::Refused)
    }

    // Makes one call; it is done, or refused. A call is a value, since logs are replayed, so a match tells which it is.
    fn answer(&mut self, call: Call) -> Result<Outcome, Fault>
        ensures by_the_rule { Did A.Store.answers B.Store.answers M.Measure.amount self.old call (told (λ o. o) result) self.new }
    {
        match call {
            Call::Begin => self.begin().map(|_| Outcome::Begun),
            Call::Step => self.step().map(|_| Outcome::Stepped),
            Call::Probe(cell) => self.probe(cell).map(|_| Outcome::Probed),
            Call::Look => self.look().map(Outcome::Looked),
            Call::Result => self.result().map(Outcome::Answered),
        }
    }

    // Makes the calls in order, and answers the outcome of each.
    pub fn replay(&mut self, heap: Global, calls: &[Call]) -> Result<Vec<Outcome>, AllocError>
        ensures by_the_rules { IfOk result (λ v. Ran A.Store.answers B.Store.answers M.Measure.amount self.old calls.now v.items self.new) }
    {
        let mut outcomes = Vec::new(heap);
        // A loop, since a proof knows nothing of what a closure changes.
        for call in calls {
            let outcome = self.call(*call);
            outcomes.push(outcome)?;
        }
        Ok(outcomes)
    }
}
