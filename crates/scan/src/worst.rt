// The loops of the scan.
ghost use Rattle.std.specs.Prelude.{◌≡◌, ◌<◌, ◌≤◌, ◌⊎◌, IfSome, Decides};
ghost use Rattle.board.specs.Distances.{distance as distance_of};
ghost use Rattle.board.specs.Findings.{code_of};
ghost use Rattle.board.specs.Lists.{Rises};
ghost use Rattle.scan.specs.Pairs.{Worst};

use crate::round::Round;
use board::amounts::distance;
use board::cell::Cell;
use board::finding::Finding;
use board::measure::Measure;

// Whether a cell of the drawing comes before the best so far: nearer, or as near and earlier. The first cell does.
fn nearer(found: Finding, best: Option<Finding>) -> bool
    ensures { Decides result (IfSome best (λ p. (found.distance < p.distance) ⊎ ((found.distance ≡ p.distance) × (code_of found.drawing < code_of p.drawing)))) }
{
    best.is_none_or(|best| (found.distance, found.drawing) < (best.distance, best.drawing))
}

// The cell of A that is farthest from B, with its nearest cell of B; none where a list is empty.
// A cell of A is left as soon as some cell of B is no farther than low; the cells of B are gone through from its own place on, to both sides.
pub(crate) fn worst<M: Measure>(a: &[u32], b: &[u32], m: &M) -> Option<Finding>
    requires { Rises a.now }
    ensures { Worst (distance_of (M.Measure.amount m.now)) a.now b.now result }
{
    let mut low: Option<Finding> = None;
    'film: for code in a {
        let film = Cell::from_code(*code);
        let mut best: Option<Finding> = None;
        for other in Round::of(b, b.partition_point(|other| other < code)) {
            let drawing = Cell::from_code(*other);
            let found = Finding {
                distance: distance(m, film, drawing),
                film,
                drawing,
            };
            if low.is_some_and(|low| found.distance <= low.distance) {
                continue 'film;
            }
            if nearer(found, best) {
                best = Some(found);
            }
        }
        low = best;
    }
    low
}
