// Squares of A that wait to be looked into, and their order.
ghost use Rattle.std.specs.Prelude.{Some, refl};
ghost use Rattle.comparison.specs.Suspects.{before, suspects, SuspectsAreOrdered};
ghost use Rattle.comparison.specs.SuspectFacts.{ties};
ghost use Rattle.std.specs.Cmp.{partial_order_from_agreeing_total};

use board::measure::Amount;
use board::square::Square;
use std::cmp::Ordering;

// A square of A with its key and partner.
#[derive(Clone, Copy, Default, PartialEq, Eq, Debug)]
pub struct Suspect {
    pub key: Amount,
    pub square: Square,
    pub partner: u32,
}

impl PartialOrd for Suspect {
    ghost partial_cmp = { λ x y. Some (before x y) };

    ghost laws = { partial_order_from_agreeing_total before suspects (λ _ _. refl) ties };

    fn partial_cmp(&self, other: &Suspect) -> Option<Ordering> {
        Some(self.cmp(other))
    }
}

// By the key, then the square, then the partner.
// The greater key comes first: a derive would say so only of a key wrapped in `Reverse`, which each reader would take off.
impl Ord for Suspect {
    ghost cmp = { before };

    ghost total = { suspects };

    ghost matches_partial_cmp = { λ _ _. refl };

    ghost matches_eq = { ties };

    fn cmp(&self, other: &Suspect) -> Ordering {
        let by_key = other.key.cmp(&self.key);
        by_key
            .then(self.square.cmp(&other.square))
            .then(self.partner.cmp(&other.partner))
    }
}

// The order of suspects is total, and goes by key, first code, level and partner.
pub fn suspects_are_ordered()
    ensures order { SuspectsAreOrdered }
{}
