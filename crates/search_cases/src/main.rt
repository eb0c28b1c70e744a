// Keys and partners, first cells, walks and waiting lists, shown case by case: on the eight by eight cells of the southwest corner, and on cells far apart.
#![tactic(auto)]

use board::cell::Cell;
use board::finding::Finding;
use board::measure::{Amount, Greater, Measure, Squared, Sum};
use board::refusal::Refusal;
use board::square::{Square, TOP};
use search::first::first_cell;
use search::nearest::nearest;
use search::neighbour::Neighbour;
use search::waiting::WaitingList;
use search::walk::{Visitor, walk};
use store::either::Either;
use store::list::CodeList;
use store::rectangle::Rectangle;
use store::store::{Answer, Store};
use store::window::Window;

// The level of the corner, and its cells.
const CORNER: u8 = 3;

const CELLS: u32 = 64;

// Cells of the corner.
static CODES: [u32; 7] = [0, 3, 9, 28, 45, 54, 63];

static OTHERS: [u32; 4] = [12, 30, 33, 51];

// The cells (1, 1) and (6, 2), and the cells (1, 2) and (3, 6).
static FILM: [u32; 2] = [3, 28];

static DRAWING: [u32; 2] = [9, 45];

// Cells all over the board, and cells from which they are looked for.
static WIDE: [u32; 8] = [
    0,
    1000,
    70_000,
    16_777_216,
    1_431_655_765,
    2_863_311_530,
    3_221_225_472,
    4_294_967_295,
];

static FROM: [u32; 7] = [
    0,
    5,
    70_001,
    1_431_655_765,
    2_863_311_531,
    3_000_000_000,
    4_294_967_295,
];

fn entry(amount: Amount, level: u8, number: u32) -> Neighbour {
    Neighbour {
        amount,
        square: Square { level, number },
    }
}

// The keys of squares in a store, by a measure of this name.
#[derive(Drop)]
struct Keys<'a, S, M> {
    name: &'static str,
    store: &'a S,
    measure: &'a M,
}

impl<'a, S: Store, M: Measure> Keys<'a, S, M> {
    // A store's keys by a measure, under its name.
    fn of(name: &'static str, store: &'a S, measure: &'a M) -> Keys<'a, S, M> {
        Keys {
            name,
            store,
            measure,
        }
    }

    // The key and partner with a list in these places.
    fn key_in(&self, of: Square, places: &mut [Neighbour]) -> (Amount, u32) {
        nearest(of, self.store, self.measure, &mut WaitingList::new(places))
    }

    // The key and partner of a square, where lists of 1, 3, 4, 5 and 64 places agree on it.
    fn key_of(&self, of: Square) -> Option<(Amount, u32)> {
        let key = self.key_in(of, &mut [Neighbour::default(); 64]);
        let others = [
            self.key_in(of, &mut [Neighbour::default(); 1]),
            self.key_in(of, &mut [Neighbour::default(); 3]),
            self.key_in(of, &mut [Neighbour::default(); 4]),
            self.key_in(of, &mut [Neighbour::default(); 5]),
        ];
        others.iter().all(|other| *other == key).then_some(key)
    }

    // One line for a square.
    fn show_key(&self, rt: &HostRuntime, of: Square) -> anyhow::Result<()> {
        let Square { level, number } = of;
        match self.key_of(of) {
            Some((key, partner)) => println!(rt; "    {level} {number}: {key} {partner}")?,
            None => println!(rt; "    {level} {number}: the lists do not agree")?,
        }
        Ok(())
    }

    // Every square of the corner, and the squares around it.
    fn show_corner(&self, rt: &HostRuntime) -> anyhow::Result<()> {
        println!(rt; "  {}", self.name)?;
        for level in 0..CORNER {
            for number in 0..CELLS >> (2 * level) {
                self.show_key(rt, Square { level, number })?;
            }
        }
        for level in CORNER..=TOP + 1 {
            self.show_key(rt, Square { level, number: 0 })?;
        }
        Ok(())
    }

    // The squares of every level around some cells.
    fn show_wide(&self, rt: &HostRuntime) -> anyhow::Result<()> {
        println!(rt; "  {}", self.name)?;
        for code in FROM {
            for level in 0..=TOP {
                let number = code.checked_shr(2 * level as u32).unwrap_or(0);
                self.show_key(rt, Square { level, number })?;
            }
        }
        Ok(())
    }
}

// What is done with each cell that a walk meets.
// A trait and no closure: to call a closure asks that it may be called, and a visitor's `meet` may ask for nothing.
trait Each {
    fn cell(&mut self, code: u32);
}

// A walk over the cells of a store.
#[derive(Drop)]
struct Cells<'a, S, E> {
    store: &'a S,
    each: E,
}

impl<'a, S: Store, E: Each> Visitor for Cells<'a, S, E> {
    ghost floor = { λ _. 0 };

    ghost since = { λ _. 0 };

    ghost done = { λ _ _. Unit {0} };

    ghost comes = { λ _ _. Unit {0} };

    fn floor(&self) -> u8 {
        0
    }

    fn meet(&mut self, s: Square) -> bool {
        if self.store.query(s) == Answer::Empty {
            return false;
        }
        if s.level > 0 {
            return true;
        }
        self.each.cell(s.number);
        false
    }
}

// How many cells were met, and whether each came after the one before it.
#[derive(Drop)]
struct Roll {
    met: u32,
    last: Option<u32>,
    rising: bool,
}

impl Each for Roll {
    fn cell(&mut self, code: u32) {
        self.rising = self.rising && self.last.is_none_or(|last| last < code);
        self.last = Some(code);
        self.met = self.met.saturating_add(1);
    }
}

fn show_cells<S: Store>(rt: &HostRuntime, store: &S) -> anyhow::Result<()> {
    match first_cell(store) {
        Some(cell) => println!(rt; "  first cell: {cell}")?,
        None => println!(rt; "  no cell")?,
    }
    let roll = Roll {
        met: 0,
        last: None,
        rising: true,
    };
    let mut cells = Cells { store, each: roll };
    walk(&mut cells, Square::BOARD);
    let Roll { met, rising, .. } = cells.each;
    println!(rt; "  a walk meets {met} cells, rising: {rising}")?;
    Ok(())
}

fn show_store<S: Store>(rt: &HostRuntime, name: &str, store: &S) -> anyhow::Result<()> {
    println!(rt; "{name}")?;
    show_cells(rt, store)?;
    Keys::of("square", store, &Squared).show_corner(rt)?;
    Keys::of("sum", store, &Sum).show_corner(rt)?;
    Keys::of("greater", store, &Greater).show_corner(rt)?;
    Ok(())
}

fn list_of(codes: &'static [u32]) -> anyhow::Result<CodeList<'static>> {
    Ok(CodeList::try_from(codes).map_err(|fault| fault.numbered())?)
}

fn rectangle(west: u16, south: u16, east: u16, north: u16) -> anyhow::Result<Rectangle> {
    Ok(Rectangle::new(west, south, east, north).map_err(|fault| fault.numbered())?)
}

// The first of the cells that lie farthest from a drawing, of those that were tried.
#[derive(Drop)]
struct Farthest<'a, 'n, B, M> {
    drawing: &'a B,
    measure: &'a M,
    neighbours: WaitingList<'n, Neighbour>,
    found: Option<Finding>,
}

impl<B: Store, M: Measure> Each for Farthest<'_, '_, B, M> {
    fn cell(&mut self, code: u32) {
        let cell = Square::cell(code);
        let (distance, partner) = nearest(cell, self.drawing, self.measure, &mut self.neighbours);
        if self.found.is_none_or(|found| found.distance < distance) {
            self.found = Some(Finding {
                distance,
                film: Cell::from_code(code),
                drawing: Cell::from_code(partner),
            });
        }
    }
}

// How far one list strays from the other, and the pair that shows it.
fn show_distance<'a, A: Store, B: Store, M: Measure>(
    rt: &HostRuntime,
    name: &str,
    film: &A,
    drawing: &'a B,
    measure: &'a M,
) -> anyhow::Result<()> {
    let mut places = [Neighbour::default(); 4];
    let farthest = Farthest {
        drawing,
        measure,
        neighbours: WaitingList::new(&mut places),
        found: None,
    };
    let mut cells = Cells {
        store: film,
        each: farthest,
    };
    walk(&mut cells, Square::BOARD);
    match cells.each.found {
        None => println!(rt; "  {name}: no pair")?,
        Some(found) => println!(rt; "  {name}: {found}")?,
    }
    Ok(())
}

// Adds to a list of three places until it is full, and takes until it is empty.
fn show_list(rt: &HostRuntime) -> anyhow::Result<()> {
    println!(rt; "a list of three places")?;
    let mut places = [Neighbour::default(); 3];
    let mut list = WaitingList::new(&mut places);
    for x in [
        entry(5, 1, 0),
        entry(2, 0, 7),
        entry(2, 1, 1),
        entry(1, 0, 0),
    ] {
        let added = list.add(x);
        let waiting = list.len();
        let free = list.free();
        println!(rt; "  added: {added}, waiting {waiting}, free {free}")?;
    }
    while let Some(x) = list.take() {
        let Neighbour {
            amount,
            square: Square { level, number },
        } = x;
        let waiting = list.len();
        println!(rt; "  taken: {amount} {level} {number}, waiting {waiting}")?;
    }
    let none = list.first().is_none();
    println!(rt; "  none is first: {none}")?;
    Ok(())
}

fn run(rt: &HostRuntime) -> anyhow::Result<()> {
    let list = list_of(&CODES)?;
    let others = list_of(&OTHERS)?;
    let wide = list_of(&WIDE)?;
    let frame = rectangle(1, 1, 6, 5)?;
    let inner = rectangle(2, 0, 5, 3)?;
    show_list(rt)?;
    show_store(rt, "no cells", &CodeList::empty())?;
    show_store(rt, "list", &list)?;
    show_store(rt, "window over a list", &Window::over(frame, list))?;
    let either = Either::of(others, Window::over(inner, list));
    show_store(rt, "either of a list and a window", &either)?;
    let film = list_of(&FILM)?;
    let drawing = list_of(&DRAWING)?;
    println!(rt; "a film and a drawing")?;
    show_distance(rt, "square", &film, &drawing, &Squared)?;
    show_distance(rt, "sum", &film, &drawing, &Sum)?;
    show_distance(rt, "greater", &film, &drawing, &Greater)?;
    show_distance(rt, "square, turned", &drawing, &film, &Squared)?;
    println!(rt; "cells far apart")?;
    show_cells(rt, &wide)?;
    Keys::of("square", &wide, &Squared).show_wide(rt)?;
    Keys::of("sum", &wide, &Sum).show_wide(rt)?;
    Keys::of("greater", &wide, &Greater).show_wide(rt)?;
    Ok(())
}

fn main(rt: HostRuntime) -> anyhow::Result<()> {
    run(&rt)
}
