// The two-way figure of two lists of codes.
ghost use Rattle.std.specs.Prelude.{MatchResult};
ghost use Rattle.board.specs.Distances.{distance as distance_of};
ghost use Rattle.scan.specs.Faults.{ScanRefused, Scanned, scan_numbered, scan_side};
ghost use Rattle.scan.specs.TwoWays.{FindsBoth};

use crate::directed::{check, finding};
use crate::fault::ScanFault;
use board::finding::Finding;
use board::measure::{Amount, Measure};

// Both directed distances with their pairs, and their sum.
#[derive(Clone, Copy, PartialEq, Eq, Debug)]
pub struct TwoWay {
    pub sum: Amount,
    // from A to B
    pub there: Finding,
    // from B to A
    pub back: Finding,
}

// The sum of the distances from A to B and from B to A, with both pairs.
pub fn two_way<M: Measure>(a: &[u32], b: &[u32], m: &M) -> Result<TwoWay, ScanFault>
    ensures both_or_refused { MatchResult result (λ t. Scanned a.now b.now × FindsBoth (distance_of (M.Measure.amount m.now)) a.now b.now t) (λ f. ScanRefused a.now b.now (scan_side f) (scan_numbered f)) }
{
    check(a, b)?;
    let there = finding(a, b, m);
    let back = finding(b, a, m);
    Ok(TwoWay {
        sum: there.distance + back.distance,
        there,
        back,
    })
}
