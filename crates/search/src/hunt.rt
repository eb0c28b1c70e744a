// The hunt for a partner: what was found so far, and what a square does to it.
ghost use Rattle.std.specs.Prelude.{◌≡◌, ℕ, ◌<◌, ◌≤◌, true, Some, MatchBool};
ghost use Rattle.board.specs.Squares.{OnBoard};
ghost use Rattle.search.specs.Hunts.{Settled, Beyond, near_to, floor, since, done, comes};
ghost use Rattle.search.specs.Visits.{Met};

use crate::walk::Visitor;
use board::amounts::{far, near};
use board::measure::{Amount, Measure};
use board::square::Square;
use store::store::{Answer, Store};

// A square of B that counts, and its far amount. The smaller amount comes first, then the smaller number.
#[derive(Clone, Copy, PartialEq, Eq, PartialOrd, Ord)]
pub struct Partner {
    pub key: Amount,
    pub number: u32,
}

// What is hunted for: the nearest square of a store, from one square on, by one measure.
#[derive(Drop)]
pub struct Aim<'a, B, M> {
    pub store: &'a B,
    pub measure: &'a M,
    pub of: Square,
}

#[derive(Drop)]
pub struct Hunt<'a, B, M> {
    pub aim: Aim<'a, B, M>,
    pub best: Option<Partner>,
}

impl<'a, B: Store, M: Measure> Hunt<'a, B, M> {
    // The near amount of s.
    pub fn near(&self, s: Square) -> Amount
        ensures { result ≡ near_to B.Store.answers M.Measure.amount self.now.aim s.level s.number }
    {
        near(self.aim.measure, self.aim.of, s)
    }

    // Whether no square this far comes before the best: at an equal amount one with a smaller number may.
    pub fn beyond(&self, amount: Amount) -> bool
        ensures { MatchBool result (Beyond self.now.best amount) (Beyond self.now.best amount → ⊥) }
    {
        self.best.is_some_and(|found| found.key < amount)
    }

    // Whether p comes before the best.
    fn improves(&self, p: Partner) -> bool
        ensures { MatchBool result ((k q : ℕ) → Settled self.now.best k q → Settled (Some p) k q) (Settled self.now.best p.key p.number) }
    {
        self.best.is_none_or(|found| p < found)
    }

    // Looks at a square of the level or above, and says whether to go on into its quarters.
    pub fn look(&mut self, s: Square) -> bool
        ensures same_aim { self.new.aim ≡ self.old.aim }
        ensures stops_at_level { result ≡ true → self.old.aim.of.level < s.level }
        ensures looked { OnBoard s.level s.number → self.old.aim.of.level ≤ s.level → Met (floor B.Store.answers M.Measure.amount) (since B.Store.answers M.Measure.amount) (done B.Store.answers M.Measure.amount) (comes B.Store.answers M.Measure.amount) self.old s result self.new }
    {
        let answer = self.aim.store.query(s);
        if answer == Answer::Empty {
            return false;
        }
        if s.level > self.aim.of.level {
            return true;
        }
        if answer.counts() {
            let key = far(self.aim.measure, self.aim.of, s);
            let partner = Partner {
                key,
                number: s.number,
            };
            if self.improves(partner) {
                self.best = Some(partner);
            }
        }
        false
    }
}

impl<'a, B: Store, M: Measure> Visitor for Hunt<'a, B, M> {
    ghost floor = { floor B.Store.answers M.Measure.amount };

    ghost since = { since B.Store.answers M.Measure.amount };

    ghost done = { done B.Store.answers M.Measure.amount };

    ghost comes = { comes B.Store.answers M.Measure.amount };

    fn floor(&self) -> u8 {
        self.aim.of.level
    }

    fn meet(&mut self, s: Square) -> bool {
        !self.beyond(self.near(s)) && self.look(s)
    }
}
