// Piles of stores, shown square by square on the eight by eight cells of the southwest corner:
// what each store answers, and how many cells of the square it holds when its cells are asked one by one.
#![tactic(auto)]

ghost use Rattle.std.specs.Prelude.{◌⊎◌};
ghost use Rattle.board.specs.Lists.{Has};
ghost use Rattle.store.specs.Eithers.{joined};
ghost use Rattle.store.specs.Exact.{HoldsSet, exact};
ghost use Rattle.store.specs.Rectangles.{Covers, filled};
ghost use Rattle.store.specs.Windows.{windowed};

use anyhow::{Context, anyhow};
use board::cell::Cell;
use board::refusal::Refusal;
use board::square::Square;
use std::alloc::{AllocError, Global};
use store::either::Either;
use store::list::CodeList;
use store::rectangle::Rectangle;
use store::sound::holds;
use store::store::{Answer, Store};
use store::window::Window;
use stripes::Stripes;

// The level of the corner that is shown, and its cells.
const CORNER: u8 = 3;

const CELLS: u32 = 64;

// The codes of the list at the bottom of the pile.
static CODES: [u32; 7] = [0, 3, 9, 28, 45, 54, 63];

// Codes that are refused; the list then stays as it was.
static EQUAL: [u32; 3] = [4, 9, 9];

// A window over an either over a list and a window of a rectangle.
type Pile<'a> = Window<Either<CodeList<'a>, Window<Rectangle>>>;

// It holds the codes of the list and the cells of inner that frame has, where outer has them.
fn pile_up<'a>(outer: Rectangle, list: CodeList<'a>, frame: Rectangle, inner: Rectangle) -> Pile<'a>
    ensures holds { HoldsSet (λ c. (Has list.entry.codes.now c ⊎ (Covers inner c × Covers frame c)) × Covers outer c) (windowed result.rectangle (joined (exact result.store.first.codes.now) (windowed result.store.second.rectangle (filled result.store.second.store)))) }
{
    Window::over(outer, Either::of(list, Window::over(frame, inner)))
}

// An answer has a letter in these pictures alone, so the letter is no part of its type.
fn letter(answer: Answer) -> char {
    match answer {
        Answer::Empty => '.',
        Answer::Occupied => 'o',
        Answer::Unknown => '?',
    }
}

// The answers of the squares of this level, by their numbers.
fn answers<S: Store>(
    heap: Global,
    store: &S,
    level: u8,
    squares: u32,
) -> Result<String, AllocError> {
    (0..squares)
        .map(|number| letter(store.query(Square { level, number })))
        .collect(heap)
}

// How many cells of a square of the corner the store holds: those with its codes, from its first one on.
fn held<S: Store>(store: &S, square: Square) -> usize {
    let first = square.first_code().unwrap_or(0);
    let cells = 1u32.wrapping_shl(2 * square.level as u32);
    (first..first.saturating_add(cells))
        .map(Cell::from_code)
        .filter(|cell| holds(store, *cell))
        .count()
}

// The number of cells held in each square of this level, by their numbers.
fn counts<S: Store>(
    heap: Global,
    store: &S,
    level: u8,
    squares: u32,
) -> Result<String, AllocError> {
    let mut text = String::new(heap);
    for number in 0..squares {
        let count = held(store, Square { level, number });
        write!(text, " {count}")?;
    }
    Ok(text)
}

fn show<S: Store>(rt: &HostRuntime, name: &str, store: &S) -> anyhow::Result<()> {
    println!(rt; "{name}")?;
    for level in 0..=CORNER {
        let squares = CELLS >> (2 * level);
        let answers = answers(rt.alloc(), store, level, squares)?;
        let counts = counts(rt.alloc(), store, level, squares)?;
        println!(rt; "  level {level}: {answers}")?;
        println!(rt; "  cells  :{counts}")?;
    }
    let board = answers(rt.alloc(), store, 16, 2)?;
    let above = answers(rt.alloc(), store, 17, 1)?;
    println!(rt; "  board and beside it: {board}, above it: {above}")?;
    Ok(())
}

// A refusal, by its number and its place.
fn show_refusal<R: Refusal>(rt: &HostRuntime, what: &str, fault: &R) -> anyhow::Result<()> {
    println!(rt; "{what} refused: {}", fault.numbered())?;
    Ok(())
}

fn rectangle(
    rt: &HostRuntime,
    west: u16,
    south: u16,
    east: u16,
    north: u16,
) -> anyhow::Result<Rectangle> {
    Rectangle::new(west, south, east, north).or_else(|fault| {
        show_refusal(rt, "rectangle", &fault)?;
        Err(anyhow!("no rectangle"))
    })
}

// Fills the list, or says why not.
fn fill(
    rt: &HostRuntime,
    list: &mut CodeList<'static>,
    codes: &'static [u32],
) -> anyhow::Result<()> {
    list.open(codes)
        .or_else(|fault| show_refusal(rt, "list", &fault))
}

fn run(rt: &HostRuntime) -> anyhow::Result<()> {
    let mut list = CodeList::empty();
    show(rt, "list before it is filled", &list)?;
    fill(rt, &mut list, &CODES)?;
    fill(rt, &mut list, &EQUAL)?;
    show(rt, "list", &list)?;
    let inner = rectangle(rt, 0, 3, 7, 6)?;
    let frame = rectangle(rt, 2, 2, 4, 7)?;
    let outer = rectangle(rt, 1, 1, 6, 5)?;
    show(rt, "rectangle", &inner)?;
    show(
        rt,
        "window over an either over a list and a window of a rectangle",
        &pile_up(outer, list, frame, inner),
    )?;
    let stripes = Stripes::new(3).context("no stripes")?;
    show(
        rt,
        "window over stripes at a pitch of three",
        &Window::over(outer, stripes),
    )?;
    let _ = rectangle(rt, 5, 0, 4, 0);
    let _ = rectangle(rt, 0, 5, 0, 4);
    Ok(())
}

fn main(rt: HostRuntime) -> anyhow::Result<()> {
    run(&rt)
}
