// The measures by name.
ghost use Rattle.std.specs.Prelude.{◌≡◌, ◌≢◌, MatchResult};
ghost use Rattle.guide.specs.declared.kind.Kind.{Kind as OfKind};
ghost use Rattle.guide.specs.Kinds.{name_of, amount_of, laws_of};

use board::measure::{Amount, Greater, Measure, Squared, Sum};
use std::str::FromStr;
use thiserror::Error;

#[derive(Clone, Copy, PartialEq, Eq, Debug)]
pub enum Kind {
    Square,
    Sum,
    Greater,
}

impl Measure for Kind {
    ghost amount = { amount_of };

    ghost laws = { laws_of };

    fn amount(&self, dx: u16, dy: u16) -> Amount {
        match self {
            Kind::Square => Squared.amount(dx, dy),
            Kind::Sum => Sum.amount(dx, dy),
            Kind::Greater => Greater.amount(dx, dy),
        }
    }
}

// A name that no measure has.
#[derive(Clone, Copy, PartialEq, Eq, Debug, Error)]
#[error("the measure is square, sum or greater")]
pub struct UnknownKind;

impl FromStr for Kind {
    type Err = UnknownKind;

    ghost from_str_gives = { λ name r. MatchResult r (λ k. name ≡ name_of k) (λ _. (k : OfKind) → name ≢ name_of k) };

    fn from_str(name: &str) -> Result<Kind, UnknownKind> {
        match name {
            "square" => Ok(Kind::Square),
            "sum" => Ok(Kind::Sum),
            "greater" => Ok(Kind::Greater),
            _ => Err(UnknownKind),
        }
    }
}
