// The search for the nearest square, the most promising square first.
ghost use Rattle.std.specs.Prelude.{◌≡◌, ◌<◌, ◌≤◌, [], ◌∷◌, MatchOption};
ghost use Rattle.board.specs.Limits.{parts, edge, most};
ghost use Rattle.board.specs.Squares.{OnBoard};
ghost use Rattle.search.specs.Descents.{quarter};
ghost use Rattle.search.specs.Hunts.{Hunted, near_to, done};
ghost use Rattle.search.specs.Keys.{Keyed, KeyBounds, KeyFalls, KeyOfCell, KeyLaws};
ghost use Rattle.search.specs.Offers.{Offered};
ghost use Rattle.search.specs.Piles.{piled};
ghost use Rattle.search.specs.WaitingLists.{waiting, room};

use crate::hunt::{Aim, Hunt, Partner};
use crate::neighbour::Neighbour;
use crate::waiting::WaitingList;
use crate::walk::walk;
use board::measure::{Amount, Measure};
use board::span::EDGE;
use board::square::{PARTS, Square, TOP};
use store::store::Store;

// Looks at s; what is left to be looked into waits, or where no place is free is walked in depth.
// The hunt and the list go side by side, and in no struct of both: the list is the caller's, and the hunt is this call's.
// The square is on the board by the call: a query takes any square, so its type cannot say so.
fn offer<B: Store, M: Measure>(hunt: &mut Hunt<B, M>, list: &mut WaitingList<Neighbour>, s: Square)
    requires board { OnBoard s.level s.number }
    requires above { hunt.old.aim.of.level ≤ s.level }
    ensures hunted { Hunted B.Store.answers M.Measure.amount hunt.old hunt.new }
    ensures offered { Offered hunt.old.aim.of.level (near_to B.Store.answers M.Measure.amount hunt.old.aim) (done B.Store.answers M.Measure.amount hunt.new) (s ∷ []) list.old list.new }
{
    let amount = hunt.near(s);
    if hunt.beyond(amount) {
        return;
    }
    if !hunt.look(s) {
        return;
    }
    if !list.add(Neighbour { amount, square: s }) {
        walk(hunt, s);
    }
}

// Offers the quarters of s.
fn spread<B: Store, M: Measure>(hunt: &mut Hunt<B, M>, list: &mut WaitingList<Neighbour>, s: Square)
    requires board { OnBoard s.level s.number }
    requires above { hunt.old.aim.of.level < s.level }
    ensures hunted { Hunted B.Store.answers M.Measure.amount hunt.old hunt.new }
    ensures offered { Offered hunt.old.aim.of.level (near_to B.Store.answers M.Measure.amount hunt.old.aim) (done B.Store.answers M.Measure.amount hunt.new) (piled (quarter s) parts []) list.old list.new }
{
    for k in 0..PARTS {
        if let Some(quarter) = s.quarter(k) {
            offer(hunt, list, quarter);
        }
    }
}

// What is answered where this was found: its amount and number, and else the amount of the greatest offset, and 0.
fn outcome<M: Measure>(m: &M, best: Option<Partner>) -> (Amount, u32)
    ensures { MatchOption best ((result.0 ≡ M.Measure.amount m.now edge edge) × (result.1 ≡ 0)) (λ p. (result.0 ≡ p.key) × (result.1 ≡ p.number)) }
{
    best.map_or(
        (m.amount(EDGE as u16, EDGE as u16), 0),
        |p| (p.key, p.number),
    )
}

// The key and the partner of a square: of the squares of its level that B says hold a cell, the smallest far amount to it, and the number of the first that has it. Where there is none: the amount of the greatest offset, and 0.
pub fn nearest<'a, B: Store, M: Measure>(
    of: Square,
    b: &'a B,
    m: &'a M,
    neighbours: &mut WaitingList<Neighbour>,
) -> (Amount, u32)
    ensures keyed { Keyed (M.Measure.amount m.now) (B.Store.answers b.now) of.level of.number result.0 result.1 }
    ensures limited { result.0 ≤ most }
    ensures no_cell_farther { KeyBounds (M.Measure.amount m.now) (B.Store.answers b.now) of.level of.number result.0 }
    ensures no_quarter_farther { KeyFalls (M.Measure.amount m.now) (B.Store.answers b.now) of.level of.number result.0 }
    ensures cell_and_its_nearest { KeyOfCell (M.Measure.amount m.now) (B.Store.answers b.now) of.level of.number result.0 result.1 }
    ensures neighbours_empty { waiting neighbours.new ≡ [] }
    ensures same_room { room neighbours.new ≡ room neighbours.old }
{
    neighbours.clear();
    if of.level > TOP {
        return outcome(m, None);
    }
    let mut hunt = Hunt {
        aim: Aim {
            store: b,
            measure: m,
            of,
        },
        best: None,
    };
    offer(&mut hunt, neighbours, Square::BOARD);
    while let Some(next) = neighbours.take() {
        if hunt.beyond(next.amount) {
            neighbours.clear();
        } else {
            spread(&mut hunt, neighbours, next.square);
        }
    }
    outcome(m, hunt.best)
}

// What keys say of distances, for every store and measure.
pub fn keys_are_bounds<B: Store, M: Measure>(_b: &B, _m: &M)
    ensures laws { KeyLaws (M.Measure.amount _m.now) (B.Store.answers _b.now) }
{}
