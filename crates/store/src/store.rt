// The one query, and the facts that every store owes.
ghost use Rattle.std.specs.Prelude.{◌≡◌, ℕ};
ghost use Rattle.store.specs.declared.store.Answer.{Answer};
ghost use Rattle.store.specs.Stores.{StoreFacts, counts};

use board::square::Square;

// What a store says of a square. It is made of no bool: true would not say which answer it is.
#[derive(Clone, Copy, PartialEq, Eq, Debug)]
pub enum Answer {
    // it holds no cell
    Empty,
    // it holds a cell
    Occupied,
    // it may hold a cell
    Unknown,
}

impl Answer {
    // By cases, so that one that is added has to be decided here.
    // Whether the answer says that the square holds a cell.
    pub fn counts(self) -> bool
        ensures value { result ≡ counts self }
    {
        match self {
            Answer::Occupied => true,
            Answer::Empty | Answer::Unknown => false,
        }
    }
}

// What is known of a set of cells, square by square.
pub trait Store {
    // the table of answers: by level and number
    ghost answers: { Self → ℕ → ℕ → Answer };

    // the proof that the table keeps to what every store owes
    ghost facts: { (s : Self) → StoreFacts (answers s) };

    // Reads the table; it is never refused, and changes nothing.
    fn query(&self, square: Square) -> Answer
        ensures answer { result ≡ answers self.now square.level square.number };
}
