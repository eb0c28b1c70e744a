// filmguide: the film in a.cells against the drawing in b.cells, by a script from standard input.
#![tactic(auto)]

use anyhow::anyhow;
use guide::films::{Setting, guide};
use guide::kind::Kind;
use guide::script::{Command, read_line};
use job::files::read_film_file;
use std::env;
use std::io::{BufRead, BufReader};

// The places of each list where no argument says how many.
const PLACES: usize = 4096;

// MEASURE, then the places of the suspects, then those of the neighbours.
fn setting(rt: &HostRuntime) -> anyhow::Result<Setting> {
    let mut words = env::args(rt)?.skip(1);
    let kind = words
        .next()
        .map_or(Ok(Kind::Square), |word| word.as_str().parse())?;
    let suspects = words
        .next()
        .map_or(Ok(PLACES), |word| word.as_str().parse())?;
    let neighbours = words
        .next()
        .map_or(Ok(PLACES), |word| word.as_str().parse())?;
    if words.next().is_some() {
        return Err(anyhow!("filmguide takes three arguments at most"));
    }
    Ok(Setting {
        kind,
        suspects,
        neighbours,
    })
}

// The commands of the script, or the number of the first line that is none.
fn script(rt: &HostRuntime) -> anyhow::Result<Vec<Command>> {
    let mut commands = Vec::new(rt.alloc());
    let lines = BufReader::new(rt.alloc(), rt.stdin())?.lines(rt.alloc());
    for (number, line) in (1..=u64::MAX).zip(lines) {
        let Ok(command) = read_line(line?.as_str()) else {
            eprintln!(rt; "line {number} of the script is none of its lines")?;
            return Err(anyhow!("nothing was run"));
        };
        if let Some(command) = command {
            commands.push(command)?;
        }
    }
    Ok(commands)
}

fn run(rt: &HostRuntime) -> anyhow::Result<()> {
    let heap = rt.alloc();
    let setting = setting(rt)?;
    let commands = script(rt)?;
    let film = read_film_file(rt, heap, "a.cells")?;
    let drawing = read_film_file(rt, heap, "b.cells")?;
    rt.print(guide(
        heap,
        film.as_slice(),
        drawing.as_slice(),
        setting,
        commands.as_slice(),
    )?)?;
    Ok(())
}

fn main(rt: HostRuntime) -> anyhow::Result<()> {
    run(&rt)
}
