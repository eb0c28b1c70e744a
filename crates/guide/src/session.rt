// The answers to a script: one line for each call.
use crate::answer::{answer_line, ran_line};
use crate::script::Command;
use board::measure::Measure;
use comparison::call::Call;
use comparison::comparison::Comparison;
use std::alloc::{AllocError, Global};
use store::store::Store;

// A comparison that a script is played on, and the answers so far.
#[derive(Drop)]
struct Session<'s, 'a, A, B, M> {
    heap: Global,
    comparison: &'s mut Comparison<'a, A, B, M>,
    text: String,
}

impl<'s, 'a, A: Store, B: Store, M: Measure> Session<'s, 'a, A, B, M> {
    // Makes calls in order.
    fn calls(&mut self, calls: &[Call]) -> Result<(), AllocError> {
        let outcomes = self.comparison.replay(self.heap, calls)?;
        for outcome in outcomes.as_slice() {
            let line = answer_line(self.heap, *outcome)?;
            self.text.push_str(line.as_str())?;
        }
        Ok(())
    }

    // Makes so many steps.
    fn steps(&mut self, count: u32) -> Result<(), AllocError> {
        for _ in 0..count {
            self.calls(&[Call::Step])?;
        }
        Ok(())
    }

    // Steps until nothing waits.
    fn run(&mut self) -> Result<(), AllocError> {
        let line = ran_line(self.heap, self.comparison.finish())?;
        self.text.push_str(line.as_str())
    }

    // A command is a value, since it is read from a script, so a match tells which it is.
    fn obey(&mut self, command: Command) -> Result<(), AllocError> {
        match command {
            // A list of one, so that what is promised of a log holds of a script.
            Command::Call(call) => self.calls(&[call]),
            Command::Steps(count) => self.steps(count),
            Command::Run => self.run(),
        }
    }

    // Does what the commands say, in order.
    fn play(mut self, commands: &[Command]) -> Result<String, AllocError> {
        for command in commands {
            self.obey(*command)?;
        }
        Ok(self.text)
    }
}

// Does what the commands say, in order; the answers, a line for each call.
pub fn answers<A: Store, B: Store, M: Measure>(
    heap: Global,
    comparison: &mut Comparison<A, B, M>,
    commands: &[Command],
) -> Result<String, AllocError> {
    let session = Session {
        heap,
        comparison,
        text: String::new(heap),
    };
    session.play(commands)
}

#[cfg(test)]
mod tests {
    use super::*;
    use board::cell::Cell;
    use board::measure::Squared;
    use comparison::suspect::Suspect;
    use search::neighbour::Neighbour;
    use store::list::CodeList;

    // The first calls of the small script of filmguide, as a log.
    #[test]
    fn a_log_is_replayed(rt: HostRuntime) {
        let heap = rt.alloc();
        let film = CodeList::try_from([3, 28].as_slice()).expect(&rt, "the film");
        let drawing = CodeList::try_from([9, 45].as_slice()).expect(&rt, "the drawing");
        let mut suspects = [Suspect::default(); 64];
        let mut neighbours = [Neighbour::default(); 64];
        let mut comparison = Comparison::new(
            film,
            drawing,
            Squared,
            &mut suspects,
            &mut neighbours,
        );
        let probe = Call::Probe(Cell { x: 6, y: 2 });
        let calls = [
            Call::Look,
            Call::Begin,
            Call::Step,
            Call::Step,
            Call::Result,
            probe,
        ];
        let outcomes = comparison.replay(heap, &calls).expect(&rt, "memory");
        let mut text = String::new(heap);
        for outcome in outcomes.as_slice() {
            let line = answer_line(heap, *outcome).expect(&rt, "memory");
            text.push_str(line.as_str()).expect(&rt, "memory");
        }
        assert_eq!(rt;
            text.as_str(),
            "refused 16 0\nbegun\nstepped\nstepped\nrefused 17 1\nprobed\n"
        );
    }
}
