// Replays cases from outside: each has a measure, the places of both lists, two films in hexadecimal, and calls; the answer to each call is written.
#![tactic(auto)]

use anyhow::{Context, anyhow};
use guide::films::{Setting, guide};
use guide::kind::Kind;
use guide::script::{Command, read_line};
use samples::films::read_film;
use std::alloc::Global;
use std::io::{BufRead, BufReader};

// The setting of a case: its name, the measure, and the places of both lists.
fn setting_of(text: &str) -> Option<Setting> {
    let mut words = text.split_whitespace();
    let _name = words.next()?;
    Some(Setting {
        kind: words.next()?.parse().ok()?,
        suspects: words.next()?.parse().ok()?,
        neighbours: words.next()?.parse().ok()?,
    })
}

// A case as far as it was read.
#[derive(Drop)]
struct Case {
    setting: Setting,
    film: Vec<u8>,
    drawing: Vec<u8>,
    commands: Vec<Command>,
}

impl Case {
    // A case with no film and no command yet.
    fn new(heap: Global, setting: Setting) -> Case {
        Case {
            setting,
            film: Vec::new(heap),
            drawing: Vec::new(heap),
            commands: Vec::new(heap),
        }
    }

    // Writes the answers.
    fn finish(&self, rt: &HostRuntime) -> anyhow::Result<()> {
        rt.print(guide(
            rt.alloc(),
            self.film.as_slice(),
            self.drawing.as_slice(),
            self.setting,
            self.commands.as_slice(),
        )?)?;
        Ok(())
    }

    // Takes one more line.
    fn take_line(&mut self, heap: Global, line: &str) -> anyhow::Result<()> {
        match line.split_once(' ') {
            Some(("a", film)) => self.film = read_film(heap, film)?,
            Some(("b", drawing)) => self.drawing = read_film(heap, drawing)?,
            _ => {
                let command = read_line(line).map_err(|_| anyhow!("a line is no call"))?;
                if let Some(command) = command {
                    self.commands.push(command)?;
                }
            }
        }
        Ok(())
    }
}

fn run(rt: &HostRuntime) -> anyhow::Result<()> {
    let heap = rt.alloc();
    // a line in front of the first case is answered too, so there is a case from the start
    let setting = Setting {
        kind: Kind::Square,
        suspects: 0,
        neighbours: 0,
    };
    let mut case = Case::new(heap, setting);
    for line in BufReader::new(heap, rt.stdin())?.lines(heap) {
        let line = line?;
        match line.as_str().strip_prefix("case ") {
            Some(text) => {
                let setting = setting_of(text).context("a case has no setting")?;
                case.finish(rt)?;
                case = Case::new(heap, setting);
            }
            None => case.take_line(heap, line.as_str())?,
        }
    }
    case.finish(rt)
}

fn main(rt: HostRuntime) -> anyhow::Result<()> {
    run(&rt)
}
