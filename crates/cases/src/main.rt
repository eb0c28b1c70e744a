// The worked cases, executed: films of (1,1), (6,2) and (1,2), (3,6), and small lists that are refused.
#![tactic(auto)]

use board::cell::Cell;
use board::finding::Finding;
use board::list::check_list;
use board::measure::{Greater, Measure, Squared, Sum};
use board::refusal::Refusal;
use job::line::film_line;
use scan::directed::scan;
use scan::two_way::two_way;

const FILM: [u32; 2] = [3, 28];

const DRAWING: [u32; 2] = [9, 45];

fn codes(rt: &HostRuntime) -> anyhow::Result<()> {
    let a = Cell { x: 1, y: 1 }.code();
    let b = Cell { x: 6, y: 2 }.code();
    let c = Cell { x: 1, y: 2 }.code();
    let d = Cell { x: 3, y: 6 }.code();
    println!(rt; "codes {a} {b} {c} {d}")?;
    Ok(())
}

// Cells in brackets, as the cases are written down.
fn shown(rt: &HostRuntime, name: &str, found: Finding) -> anyhow::Result<()> {
    let d = found.distance;
    let film = found.film;
    let drawing = found.drawing;
    println!(rt;
        "{name} {d} ({},{}) to ({},{})",
        film.x, film.y, drawing.x, drawing.y
    )?;
    Ok(())
}

fn directed<M: Measure>(
    rt: &HostRuntime,
    name: &str,
    a: &[u32],
    b: &[u32],
    m: &M,
) -> anyhow::Result<()> {
    match scan(a, b, m) {
        Ok(found) => shown(rt, name, found),
        Err(fault) => {
            println!(rt; "{name} refused {}", fault.numbered())?;
            Ok(())
        }
    }
}

fn both_ways(rt: &HostRuntime) -> anyhow::Result<()> {
    if let Ok(found) = two_way(&FILM, &DRAWING, &Squared) {
        let sum = found.sum;
        println!(rt; "two-way {sum}")?;
        shown(rt, "there", found.there)?;
        shown(rt, "back", found.back)?;
    }
    Ok(())
}

fn lists(rt: &HostRuntime) -> anyhow::Result<()> {
    if let Err(fault) = check_list(&[5, 5]) {
        println!(rt; "codes 5 5 refused {}", fault.numbered())?;
    }
    directed(
        rt,
        "disorder in B before empty A",
        &[],
        &[4, 9, 2],
        &Squared,
    )?;
    directed(rt, "empty A before empty B", &[], &[], &Squared)?;
    directed(rt, "empty B", &[7], &[], &Squared)
}

fn lines(rt: &HostRuntime) -> anyhow::Result<()> {
    let heap = rt.alloc();
    let film = [1, 0, 1, 0, 6, 0, 2, 0];
    let drawing = [1, 0, 2, 0, 3, 0, 6, 0];
    rt.print(film_line(heap, &film, &drawing, &Squared)?)?;
    rt.print(film_line(heap, &film, &[], &Squared)?)?;
    Ok(())
}

fn run(rt: &HostRuntime) -> anyhow::Result<()> {
    codes(rt)?;
    directed(rt, "square", &FILM, &DRAWING, &Squared)?;
    directed(rt, "sum", &FILM, &DRAWING, &Sum)?;
    directed(rt, "greater", &FILM, &DRAWING, &Greater)?;
    directed(rt, "B to A", &DRAWING, &FILM, &Squared)?;
    both_ways(rt)?;
    lists(rt)?;
    lines(rt)
}

fn main(rt: HostRuntime) -> anyhow::Result<()> {
    run(&rt)
}
