// What a key costs: how many squares of B the search asks about, and how many it puts on its list, on films of three kinds and two sizes.
#![tactic(auto)]

use board::cell::Cell;
use board::measure::Squared;
use board::refusal::Refusal;
use board::square::{Square, TOP};
use samples::dice::Dice;
use samples::lists::in_order;
use search::nearest::nearest;
use search::neighbour::Neighbour;
use search::waiting::WaitingList;
use std::alloc::{AllocError, Global};
use std::cell::Cell as Counter;
use store::list::CodeList;
use store::store::{Answer, Store};

// How many keys are counted for one line of figures.
const KEYS: u32 = 256;

// A store that counts what it is asked; a square above the level that holds a cell is put on the list once.
#[derive(Drop)]
struct Counted<S> {
    inner: S,
    level: u8,
    queries: Counter<u64>,
    listed: Counter<u64>,
}

impl<S: Store> Store for Counted<S> {
    ghost answers = { λ s. S.Store.answers s.inner };

    ghost facts = { λ s. S.Store.facts s.inner };

    fn query(&self, square: Square) -> Answer {
        self.queries.set(self.queries.get().wrapping_add(1));
        let answer = self.inner.query(square);
        if square.level > self.level && answer != Answer::Empty {
            self.listed.set(self.listed.get().wrapping_add(1));
        }
        answer
    }
}

// Below 2^16, from the generator.
fn coordinate(dice: &mut Dice) -> u16 {
    (dice.roll() >> 16) as u16
}

// The cell number i of a line along two rows.
fn on_line(i: u32) -> Cell {
    Cell {
        x: (i & 0xffff) as u16,
        y: 30000 + (i >> 16 & 1) as u16,
    }
}

// A cell about one of sixteen places.
fn in_cluster(dice: &mut Dice) -> Cell {
    let place = dice.roll() >> 28;
    let mut centre = Dice {
        state: place as u64,
    };
    let x = coordinate(&mut centre);
    let y = coordinate(&mut centre);
    let dx = (coordinate(dice) >> 7) + (coordinate(dice) >> 7);
    let dy = (coordinate(dice) >> 7) + (coordinate(dice) >> 7);
    Cell {
        x: x.wrapping_add(dx),
        y: y.wrapping_add(dy),
    }
}

// Squares of one level, all over the board.
fn all_over(heap: Global, level: u8) -> Result<Vec<Square>, AllocError> {
    let mut dice = Dice { state: 2 };
    let squares = (0..KEYS).map(|_| Square {
        level,
        number: dice.roll() >> 2 * level.min(TOP - 1),
    });
    squares.collect(heap)
}

// The cell that lies one to the east and one to the north.
fn northeast(code: u32) -> Square {
    let cell = Cell::from_code(code);
    let other = Cell {
        x: cell.x.saturating_add(1),
        y: cell.y.saturating_add(1),
    };
    Square::cell(other.code())
}

// Cells that lie one to the east and one to the north of a cell of the film.
fn beside(heap: Global, codes: &[u32]) -> Result<Vec<Square>, AllocError> {
    let codes = codes.iter().copied().take(KEYS as usize);
    codes.map(northeast).collect(heap)
}

// The cost of the keys of some squares of one level.
fn show_cost(
    rt: &HostRuntime,
    name: &str,
    list: CodeList,
    level: u8,
    squares: &[Square],
) -> anyhow::Result<()> {
    let store = Counted {
        inner: list,
        level,
        queries: Counter::new(0),
        listed: Counter::new(0),
    };
    let mut places = [Neighbour::default(); 2048];
    let mut neighbours = WaitingList::new(&mut places);
    let mut most: u64 = 0;
    for of in squares {
        let before = store.queries.get();
        let _ = nearest(*of, &store, &Squared, &mut neighbours);
        most = most.max(store.queries.get().wrapping_sub(before));
    }
    let queries = store.queries.get() / KEYS as u64;
    let listed = store.listed.get() / KEYS as u64;
    println!(rt; "  {name} {level}: {queries} queries, {listed} listed, at most {most} queries")?;
    Ok(())
}

// What a film of so many cells costs; the rule makes its codes, by a generator that begins anew, or by their number.
fn show_film<F: Fn(&mut Dice, u32) -> u32>(
    rt: &HostRuntime,
    name: &str,
    count: u32,
    code: F,
) -> anyhow::Result<()>
    requires { F.IsAlwaysCallable code }
{
    println!(rt; "{name} of {count} cells")?;
    let mut dice = Dice { state: 1 };
    let codes = in_order((0..count).map(|i| code(&mut dice, i)).collect(rt.alloc())?);
    let list = CodeList::try_from(codes.as_slice()).map_err(|fault| fault.numbered())?;
    for level in [0, 4, 8, 12] {
        let squares = all_over(rt.alloc(), level)?;
        show_cost(rt, "level", list, level, squares.as_slice())?;
    }
    let squares = beside(rt.alloc(), codes.as_slice())?;
    show_cost(rt, "beside the film, level", list, 0, squares.as_slice())
}

fn run(rt: &HostRuntime) -> anyhow::Result<()> {
    show_film(rt, "a line", 10_000, |_, i| on_line(i).code())?;
    show_film(rt, "a line", 100_000, |_, i| on_line(i).code())?;
    show_film(rt, "clusters", 10_000, |dice, _| in_cluster(dice).code())?;
    show_film(rt, "clusters", 100_000, |dice, _| in_cluster(dice).code())?;
    show_film(rt, "scattered", 10_000, |dice, _| dice.roll())?;
    show_film(rt, "scattered", 100_000, |dice, _| dice.roll())
}

fn main(rt: HostRuntime) -> anyhow::Result<()> {
    run(&rt)
}
