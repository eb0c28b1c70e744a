// filmdist: how far the film in a.cells strays from the drawing in b.cells, as one line.
#![tactic(auto)]

use board::measure::Squared;
use job::files::read_film_file;
use job::line::film_line;

fn run(rt: &HostRuntime) -> anyhow::Result<()> {
    let heap = rt.alloc();
    let film = read_film_file(rt, heap, "a.cells")?;
    let drawing = read_film_file(rt, heap, "b.cells")?;
    let line = film_line(heap, film.as_slice(), drawing.as_slice(), &Squared)?;
    rt.print(line)?;
    Ok(())
}

fn main(rt: HostRuntime) -> anyhow::Result<()> {
    run(&rt)
}
