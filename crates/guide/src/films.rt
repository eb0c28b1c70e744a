// Two films as bytes, compared by script.
ghost use Rattle.std.specs.Prelude.{◌≡◌};
ghost use Rattle.board.specs.Lists.{Rises};

use crate::kind::Kind;
use crate::script::Command;
use crate::session::answers;
use comparison::comparison::Comparison;
use comparison::suspect::Suspect;
use job::films::read_films;
use job::line::line;
use search::neighbour::Neighbour;
use std::alloc::{AllocError, Global};
use store::list::CodeList;

// The measure, and the places of the two waiting lists.
#[derive(Clone, Copy)]
pub struct Setting {
    pub kind: Kind,
    pub suspects: usize,
    pub neighbours: usize,
}

// The codes of a film as a store.
fn store_of(codes: &[u32]) -> CodeList<'_>
    requires { Rises codes.now }
    ensures { result.codes.now ≡ codes.now }
{
    CodeList::try_from(codes).unwrap()
}

// The answers to the commands over two stores.
// The arguments go no further together: both films are read first, the setting makes the comparison, and the commands drive it.
fn answers_over(
    heap: Global,
    film: CodeList,
    drawing: CodeList,
    setting: Setting,
    commands: &[Command],
) -> Result<String, AllocError> {
    let mut suspects = vec![in heap; Suspect::default(); setting.suspects]?;
    let mut neighbours = vec![in heap; Neighbour::default(); setting.neighbours]?;
    let mut comparison = Comparison::new(
        film,
        drawing,
        setting.kind,
        suspects.as_mut_slice(),
        neighbours.as_mut_slice(),
    );
    answers(heap, &mut comparison, commands)
}

// The answers to the commands; where a film cannot be read, the one line that says why.
pub fn guide(
    heap: Global,
    film: &[u8],
    drawing: &[u8],
    setting: Setting,
    commands: &[Command],
) -> Result<String, AllocError> {
    match read_films(heap, film, drawing) {
        Ok(films) => answers_over(
            heap,
            store_of(films.film.as_slice()),
            store_of(films.drawing.as_slice()),
            setting,
            commands,
        ),
        Err(failure) => line(heap, Err(failure.refusal()?)),
    }
}
