// How many pairs of cells the scan looks at, of all that there are, on films of four kinds.
#![tactic(auto)]

use board::cell::Cell;
use board::measure::{Amount, Measure, Squared};
use board::refusal::Refusal;
use samples::dice::Dice;
use samples::lists::in_order;
use scan::directed::scan;
use std::alloc::{AllocError, Global};
use std::cell::Cell as Counter;

// A measure that counts its calls: the scan makes one for each pair that it looks at.
#[derive(Drop)]
struct Counted<M> {
    inner: M,
    calls: Counter<u64>,
}

impl<M: Measure> Measure for Counted<M> {
    ghost amount = { λ s. M.Measure.amount s.inner };

    ghost laws = { λ s. M.Measure.laws s.inner };

    fn amount(&self, dx: u16, dy: u16) -> Amount {
        self.calls.set(self.calls.get().wrapping_add(1));
        self.inner.amount(dx, dy)
    }
}

// A block of width by height cells, its southwest corner at (x, y).
fn block(heap: Global, x: u16, y: u16, width: u16, height: u16) -> Result<Vec<u32>, AllocError> {
    let cells = (0..height).flat_map(|dy| {
        (0..width).map(move |dx| Cell {
            x: x.wrapping_add(dx),
            y: y.wrapping_add(dy),
        })
    });
    Ok(in_order(cells.map(|cell| cell.code()).collect(heap)?))
}

// Cells all over the board, from a fixed generator.
fn scattered(heap: Global, seed: u64, count: u16) -> Result<Vec<u32>, AllocError> {
    let mut dice = Dice { state: seed };
    Ok(in_order((0..count).map(|_| dice.roll()).collect(heap)?))
}

fn shown(rt: &HostRuntime, name: &str, a: &[u32], b: &[u32]) -> anyhow::Result<()> {
    let measure = Counted {
        inner: Squared,
        calls: Counter::new(0),
    };
    let found = scan(a, b, &measure).map_err(|fault| fault.numbered())?;
    let distance = found.distance;
    let looked = measure.calls.get();
    let all = (a.len() as u64).wrapping_mul(b.len() as u64);
    println!(rt; "{name}: distance {distance}, {looked} of {all} pairs")?;
    Ok(())
}

fn run(rt: &HostRuntime) -> anyhow::Result<()> {
    let heap = rt.alloc();
    let drawing = block(heap, 1000, 1000, 64, 64)?;
    let film = block(heap, 1001, 1000, 64, 64)?;
    shown(
        rt,
        "a block and itself",
        drawing.as_slice(),
        drawing.as_slice(),
    )?;
    shown(
        rt,
        "a block and one a cell to the west",
        film.as_slice(),
        drawing.as_slice(),
    )?;
    let drawing = block(heap, 500, 700, 4000, 1)?;
    let film = block(heap, 500, 703, 4000, 1)?;
    shown(
        rt,
        "a row and one three cells below",
        film.as_slice(),
        drawing.as_slice(),
    )?;
    let drawing = scattered(heap, 1, 4000)?;
    let film = scattered(heap, 2, 4000)?;
    shown(
        rt,
        "scattered cells and others",
        film.as_slice(),
        drawing.as_slice(),
    )
}

fn main(rt: HostRuntime) -> anyhow::Result<()> {
    run(&rt)
}
