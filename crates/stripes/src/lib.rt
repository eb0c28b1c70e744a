// A store of a buyer's own, worked as an example: a film of stripes, one on every column whose number is a multiple of the pitch.
#![tactic(auto)]

ghost use Rattle.std.specs.Prelude.{◌≡◌, ◌<◌, IfSome, MatchOption};
ghost use Rattle.store.specs.Exact.{Exactly, HoldsSet};
ghost use Rattle.stripes.specs.PatternFacts.{striped_facts};
ghost use Rattle.stripes.specs.Patterns.{OnStripe, striped};

use board::square::Square;
use store::store::{Answer, Store};

// Stripes at this pitch, which is not 0.
#[derive(Clone, Copy)]
pub struct Stripes {
    pitch: u16,
    ghost positive: { 0 < pitch },
}

impl Stripes {
    // No stripes where the pitch is 0.
    pub fn new(pitch: u16) -> Option<Stripes>
        ensures pitch_or_none { MatchOption result (pitch ≡ 0) (λ s. s.pitch ≡ pitch) }
        ensures exact { IfSome result (λ s. Exactly (OnStripe pitch) (striped s.pitch)) }
        ensures holds_the_stripes { IfSome result (λ s. HoldsSet (OnStripe pitch) (striped s.pitch)) }
    {
        if pitch == 0 {
            return None;
        }
        Some(Stripes { pitch })
    }
}

impl Store for Stripes {
    ghost answers = { λ s. striped s.pitch };

    ghost facts = { λ s. striped_facts s.pitch s.positive };

    // The last stripe that is not east of the square is looked at.
    fn query(&self, square: Square) -> Answer {
        if !square.on_board() {
            return Answer::Empty;
        }
        let columns = square.columns();
        let stripe = columns.last - columns.last % self.pitch;
        if columns.first <= stripe {
            Answer::Occupied
        } else {
            Answer::Empty
        }
    }
}
