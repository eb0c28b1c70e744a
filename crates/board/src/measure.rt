// Measures: an amount for each offset.
ghost use Rattle.std.specs.Prelude.{◌≡◌, ℕ};
ghost use Rattle.board.specs.Measures.{MeasureLaws, squared, summed, greater, squared_laws, summed_laws, greater_laws};

// What a measure answers: at most 2^40.
pub type Amount = u64;

// An amount for each offset, which does not fall when an offset grows.
pub trait Measure {
    ghost amount: { Self → ℕ → ℕ → ℕ };

    ghost laws: { (m : Self) → MeasureLaws (amount m) };

    fn amount(&self, dx: u16, dy: u16) -> Amount
        ensures value { result ≡ amount self.now dx dy };
}

// dx × dx + dy × dy
#[derive(Clone, Copy)]
pub struct Squared;

// dx + dy
#[derive(Clone, Copy)]
pub struct Sum;

// the greater of dx and dy
#[derive(Clone, Copy)]
pub struct Greater;

impl Measure for Squared {
    ghost amount = { λ _. squared };

    ghost laws = { λ _. squared_laws };

    fn amount(&self, dx: u16, dy: u16) -> Amount {
        let dx = dx as u64;
        let dy = dy as u64;
        dx * dx + dy * dy
    }
}

impl Measure for Sum {
    ghost amount = { λ _. summed };

    ghost laws = { λ _. summed_laws };

    fn amount(&self, dx: u16, dy: u16) -> Amount {
        dx as u64 + dy as u64
    }
}

impl Measure for Greater {
    ghost amount = { λ _. greater };

    ghost laws = { λ _. greater_laws };

    fn amount(&self, dx: u16, dy: u16) -> Amount {
        dx.max(dy) as u64
    }
}
