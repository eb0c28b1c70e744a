// What every store says truly, by the facts that it owes.
ghost use Rattle.std.specs.Prelude.{◌≡◌, ℕ, ◌≤◌, true, Decides, ◌≢◌};
ghost use Rattle.board.specs.Findings.{code_of};
ghost use Rattle.board.specs.Limits.{top};
ghost use Rattle.board.specs.Squares.{Inside};
ghost use Rattle.store.specs.Sound.{CountedHoldsACell, EmptyHoldsNone, HeldOnBoard, HolderNotEmpty, OneSquareOfEachLevel};
ghost use Rattle.store.specs.Stores.{Holds};
ghost use Rattle.store.specs.declared.store.Answer.TheVariants.{Empty as empty_answer};

use crate::store::Store;
use board::cell::Cell;
use board::square::Square;

// Whether the store holds the cell.
pub fn holds<S: Store>(store: &S, cell: Cell) -> bool
    ensures decides { Decides result (Holds (S.Store.answers store.now) (code_of cell)) }
    ensures no_empty_square_around_it { result ≡ true → (l n : ℕ) → l ≤ top → Inside l n (code_of cell) → S.Store.answers store.now l n ≢ empty_answer }
{
    store.query(Square::cell(cell.code())).counts()
}

// What the answers of any store say of the cells that it holds.
pub fn stores_are_sound<S: Store>(_store: &S)
    ensures empty_holds_no_cell { EmptyHoldsNone (S.Store.answers _store.now) }
    ensures counted_holds_a_cell { CountedHoldsACell (S.Store.answers _store.now) }
    ensures holder_is_not_empty { HolderNotEmpty (S.Store.answers _store.now) }
    ensures held_is_on_the_board { HeldOnBoard (S.Store.answers _store.now) }
    ensures one_square_of_each_level { OneSquareOfEachLevel }
{}
