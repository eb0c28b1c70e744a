// The lines of a script.
use arrayvec::ArrayVec;
use board::cell::Cell;
use comparison::call::Call;
use thiserror::Error;

#[derive(Clone, Copy, PartialEq, Eq, Debug)]
pub enum Command {
    Call(Call),
    // so many steps
    Steps(u32),
    // steps until nothing waits
    Run,
}

// A line that is none of the lines of a script.
#[derive(Clone, Copy, PartialEq, Eq, Debug, Error)]
#[error("a line is none of the lines of a script")]
pub struct UnknownLine;

// One word more than the longest line of a script has, so that a longer line is noticed.
const WORDS: usize = 4;

// A probe of the cell in two words.
fn probe(x: &str, y: &str) -> Option<Command> {
    let cell = Cell {
        x: x.parse().ok()?,
        y: y.parse().ok()?,
    };
    Some(Command::Call(Call::Probe(cell)))
}

fn command_of(words: &[&str]) -> Option<Command> {
    match words {
        ["begin"] => Some(Command::Call(Call::Begin)),
        ["step"] => Some(Command::Call(Call::Step)),
        ["step", count] => count.parse().ok().map(Command::Steps),
        ["run"] => Some(Command::Run),
        ["probe", x, y] => probe(x, y),
        ["look"] => Some(Command::Call(Call::Look)),
        ["result"] => Some(Command::Call(Call::Result)),
        _ => None,
    }
}

// The command of a line; none of an empty line, and none of a remark.
pub fn read_line(line: &str) -> Result<Option<Command>, UnknownLine> {
    let mut words = ArrayVec::<&str, WORDS>::new();
    for word in line.split_whitespace() {
        // a remark is told by its first word, so that no other of it is looked for
        if words.is_empty() && word.starts_with("#") {
            return Ok(None);
        }
        if words.try_push(word).is_err() {
            break;
        }
    }
    match words.as_slice() {
        [] => Ok(None),
        words => command_of(words).map(Some).ok_or(UnknownLine),
    }
}
