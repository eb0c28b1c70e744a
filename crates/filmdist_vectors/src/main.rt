// Runs cases from outside: each line of the input has two films in hexadecimal, and the line that filmdist prints for them is written.
#![tactic(auto)]

use anyhow::Context;
use board::measure::Squared;
use job::line::film_line;
use samples::films::read_film;
use std::io::{BufRead, BufReader};

fn run(rt: &HostRuntime) -> anyhow::Result<()> {
    let heap = rt.alloc();
    for line in BufReader::new(heap, rt.stdin())?.lines(heap) {
        let line = line?;
        let films = line.as_str().split_once(' ');
        let (film, drawing) = films.context("a line has no two films")?;
        let film = read_film(heap, film)?;
        let drawing = read_film(heap, drawing)?;
        rt.print(film_line(heap, film.as_slice(), drawing.as_slice(), &Squared)?)?;
    }
    Ok(())
}

fn main(rt: HostRuntime) -> anyhow::Result<()> {
    run(&rt)
}
