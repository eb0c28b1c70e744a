// The directed distance of two lists of codes.
ghost use Rattle.std.specs.Prelude.{◌≤◌, MatchResult};
ghost use Rattle.board.specs.Distances.{distance as distance_of};
ghost use Rattle.board.specs.Findings.{Finds};
ghost use Rattle.board.specs.Limits.{most};
ghost use Rattle.board.specs.Lists.{Has};
ghost use Rattle.board.specs.Strays.{StraysNamesOne};
ghost use Rattle.scan.specs.Faults.{ScanRefused, Scanned, scan_numbered, scan_side};

use crate::fault::ScanFault;
use crate::worst::worst;
use board::finding::Finding;
use board::list::check_list;
use board::measure::Measure;
use board::side::Side;

// The two lists come as they are lent, and from A to B is the order of the arguments; a struct of them would be made at each call to be taken apart in it.
// Refuses a list that is out of order or too long, A's before B's, and then an empty one.
pub(crate) fn check(a: &[u32], b: &[u32]) -> Result<(), ScanFault>
    ensures { MatchResult result (λ _. Scanned a.now b.now) (λ f. ScanRefused a.now b.now (scan_side f) (scan_numbered f)) }
{
    check_list(a).map_err(|fault| ScanFault::List(Side::Film, fault))?;
    check_list(b).map_err(|fault| ScanFault::List(Side::Drawing, fault))?;
    if a.is_empty() {
        return Err(ScanFault::NoCell(Side::Film));
    }
    if b.is_empty() {
        return Err(ScanFault::NoCell(Side::Drawing));
    }
    Ok(())
}

// The finding of two lists that were checked.
pub(crate) fn finding<M: Measure>(a: &[u32], b: &[u32], m: &M) -> Finding
    requires { Scanned a.now b.now }
    ensures found { Finds (distance_of (M.Measure.amount m.now)) (Has a.now) (Has b.now) result }
    ensures limited { result.distance ≤ most }
{
    worst(a, b, m).unwrap()
}

// How far the cells of A stray from those of B, and the pair that shows it.
pub fn scan<M: Measure>(a: &[u32], b: &[u32], m: &M) -> Result<Finding, ScanFault>
    ensures strays_or_refused { MatchResult result (λ f. Scanned a.now b.now × Finds (distance_of (M.Measure.amount m.now)) (Has a.now) (Has b.now) f) (λ f. ScanRefused a.now b.now (scan_side f) (scan_numbered f)) }
    ensures one_answer { StraysNamesOne (distance_of (M.Measure.amount m.now)) (Has a.now) (Has b.now) }
{
    check(a, b)?;
    Ok(finding(a, b, m))
}
