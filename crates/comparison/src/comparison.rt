// The comparison: begin, step, probe, look and result.
ghost use Rattle.std.specs.Prelude.{◌≡◌, []};
ghost use Rattle.std.specs.List.{AllByRecursion};
ghost use Rattle.std.proofs.Props.{props};
ghost use Rattle.search.specs.WaitingLists.{waiting, Ready};
ghost use Rattle.comparison.specs.Suspects.{before};
ghost use Rattle.comparison.specs.Waits.{On};

use crate::call::Sight;
use crate::fault::Fault;
use crate::ground::Ground;
use crate::record::{Figures, Record, count_on};
use crate::suspect::Suspect;
use crate::trial::Trial;
use board::cell::Cell;
use board::finding::Finding;
use board::measure::{Amount, Measure};
use board::square::{PARTS, Square};
use search::first::first_cell;
use search::neighbour::Neighbour;
use search::waiting::WaitingList;
use store::sound::holds;
use store::store::Store;

// Two stores, a measure, both waiting lists over lent memory, and the record: the same ones go to every call.
#[derive(Drop)]
pub struct Comparison<'a, A, B, M> {
    trial: Trial<'a, A, B, M>,
    suspects: WaitingList<'a, Suspect>,
    // none before the first begin
    progress: Option<Record>,
    // the suspects wait in heap order
    pub ghost in_order: { Ready before suspects } by { Prim.hlevel props },
    // they are squares of the board
    pub ghost on_board: { AllByRecursion On (waiting suspects) } by { Prim.hlevel props },
    // between calls, no neighbour waits
    pub ghost idle: { waiting trial.ground.neighbours ≡ [] } by { Prim.hlevel props },
}

impl<'a, A: Store, B: Store, M: Measure> Comparison<'a, A, B, M> {
    ghost use Rattle.std.specs.Prelude.{◌+◌, ◌-◌, ◌*◌, ◌^◌, ◌<◌, ◌≤◌, length, IfOk};
    ghost use Rattle.board.specs.Limits.{parts};
    ghost use Rattle.board.specs.Squares.{OnBoard};
    ghost use Rattle.search.specs.Offers.{weight};
    ghost use Rattle.search.specs.WaitingLists.{room};
    ghost use Rattle.comparison.specs.declared.call.Call.TheVariants.{Begin as begin_call, Step as step_call, Probe as probe_call, Look as look_call, Result as result_call};
    ghost use Rattle.comparison.specs.declared.call.Outcome.TheVariants.{Begun as as_begun, Stepped as as_stepped, Probed as as_probed, Looked as as_looked, Answered as as_answered};
    ghost use Rattle.comparison.specs.Advances.{Offered, Opened, Handles, Started};
    ghost use Rattle.comparison.specs.Calls.{fresh as fresh_state, high as high_of};
    ghost use Rattle.comparison.specs.Comparisons.{Did, Ended, world, state, told, weighed};

    // A comparison that was never begun, with these places for the two lists.
    pub fn new(
        film: A,
        drawing: B,
        measure: M,
        suspects: &'a mut [Suspect],
        neighbours: &'a mut [Neighbour],
    ) -> Comparison<'a, A, B, M>
        ensures never_begun { state result ≡ fresh_state }
        ensures over_these { world A.Store.answers B.Store.answers M.Measure.amount result ≡ record { film = A.Store.answers film; drawing = B.Store.answers drawing; measure = M.Measure.amount measure; suspects = length suspects.old; neighbours = length neighbours.old } }
    {
        Comparison {
            trial: Trial {
                ground: Ground {
                    film,
                    drawing,
                    measure,
                    neighbours: WaitingList::new(neighbours),
                },
                square: Square::default(),
                figures: Figures::default(),
            },
            suspects: WaitingList::new(suspects),
            progress: None,
        }
    }

    // Queues a square where A does not call it empty and it improves.
    // The square is on the board by the call, since a query takes any square and its type cannot say so.
    fn offer(&mut self, q: Square)
        requires on_board { OnBoard q.level q.number }
        requires one_place { length (waiting self.old.suspects) < room self.old.suspects }
        ensures offered { Offered A.Store.answers B.Store.answers M.Measure.amount self.old q self.new }
        ensures lighter { weighed self.new ≤ weighed self.old + weight q }
    {
        if self.trial.ground.film_empty_at(q) {
            return;
        }
        let suspect = self.trial.ground.suspect_of(q);
        if !self
            .trial
            .figures
            .improved_by(suspect.key, suspect.square.start())
        {
            return;
        }
        self.suspects.add(suspect);
    }

    // Offers the quarters of a square, in order.
    // The square is on the board by the call, since a query takes any square and its type cannot say so.
    fn open(&mut self, s: Square)
        requires on_board { OnBoard s.level s.number }
        requires no_cell { 1 ≤ s.level }
        requires four_places { parts + length (waiting self.old.suspects) ≤ room self.old.suspects }
        ensures opened { Opened A.Store.answers B.Store.answers M.Measure.amount self.old (s.level - 1) s.number parts self.new }
        ensures lighter { weighed self.new ≤ weighed self.old + parts * (parts + 1) ^ (s.level - 1) }
    {
        for k in 0..PARTS {
            if let Some(quarter) = s.quarter(k) {
                self.offer(quarter);
            }
        }
    }

    // Handles the suspect that a step took: drops it, settles it, opens it, or finishes it in depth.
    fn handle(&mut self, s: Suspect)
        requires on_board { On s }
        ensures handled { Handles A.Store.answers B.Store.answers M.Measure.amount self.old s self.new }
        ensures lighter { weighed self.new < weighed self.old + weight s.square }
    {
        if !self.trial.figures.improved_by(s.key, s.square.start()) {
            return;
        }
        if s.square.level == 0 {
            self.trial.figures = Figures::at_cell(s);
            return;
        }
        if self.suspects.free() >= PARTS as usize {
            self.open(s.square);
        } else {
            self.trial.try_square(s.square);
        }
    }

    // Starts anew: the first cell of A is the witness, and the board waits. A refusal leaves an earlier comparison as it was.
    pub fn begin(&mut self) -> Result<(), Fault>
        ensures by_the_rule { Did A.Store.answers B.Store.answers M.Measure.amount self.old begin_call (told (λ _. as_begun) result) self.new }
    {
        if self.suspects.capacity() == 0 {
            return Err(Fault::NoSuspectPlace);
        }
        if self.trial.ground.neighbours.capacity() == 0 {
            return Err(Fault::NoNeighbourPlace);
        }
        let film = first_cell(&self.trial.ground.film).ok_or(Fault::NoFilmCell)?;
        first_cell(&self.trial.ground.drawing).ok_or(Fault::NoDrawingCell)?;
        self.start(film.code());
        Ok(())
    }

    // Makes the cell with this code the witness, and queues the board.
    fn start(&mut self, film: u32)
        requires one_place { 0 < room self.old.suspects }
        ensures started { Started A.Store.answers B.Store.answers M.Measure.amount self.old film self.new }
    {
        self.trial.figures = self.trial.ground.figures_of(film);
        let board = self.trial.ground.suspect_of(Square::BOARD);
        self.suspects.clear();
        self.suspects.add(board);
        self.progress = Some(Record {
            queued: 1,
            taken: 0,
        });
    }

    // Takes the first suspect: it is dropped, settled, opened, or finished in depth.
    pub fn step(&mut self) -> Result<(), Fault>
        ensures by_the_rule { Did A.Store.answers B.Store.answers M.Measure.amount self.old step_call (told (λ _. as_stepped) result) self.new }
        ensures lighter { IfOk result (λ _. weighed self.new < weighed self.old) }
    {
        let record = self.progress.ok_or(Fault::NeverBegun)?;
        let s = self.suspects.take().ok_or(Fault::NothingWaits)?;
        let left = self.suspects.len();
        self.handle(s);
        let queued = self.suspects.len() - left;
        self.progress = Some(record.stepped(queued as u64));
        Ok(())
    }

    // Tries one cell of A.
    pub fn probe(&mut self, cell: Cell) -> Result<(), Fault>
        ensures by_the_rule { Did A.Store.answers B.Store.answers M.Measure.amount self.old (probe_call cell) (told (λ _. as_probed) result) self.new }
    {
        if !holds(&self.trial.ground.film, cell) {
            return Err(Fault::NotHeld);
        }
        self.progress.ok_or(Fault::NeverBegun)?;
        self.trial.try_cell(cell.code());
        Ok(())
    }

    // The greater of low and the greatest key that waits.
    fn high(&self) -> Amount
        ensures greatest { result ≡ high_of (state self.now) }
    {
        let low = self.trial.figures.low;
        self.suspects.first().map_or(low, |s| low.max(s.key))
    }

    // Shows low and high, the pair, both counts, and how many squares wait.
    pub fn look(&self) -> Result<Sight, Fault>
        ensures by_the_rule { Did A.Store.answers B.Store.answers M.Measure.amount self.now look_call (told as_looked result) self.now }
    {
        let record = self.progress.ok_or(Fault::NeverBegun)?;
        let found = self.trial.figures.finding();
        Ok(Sight {
            low: found.distance,
            high: self.high(),
            film: found.film,
            drawing: found.drawing,
            queued: record.queued,
            taken: record.taken,
            waiting: self.suspects.len(),
        })
    }

    // The distance and the pair that shows it, where nothing waits.
    pub fn result(&self) -> Result<Finding, Fault>
        ensures by_the_rule { Did A.Store.answers B.Store.answers M.Measure.amount self.now result_call (told as_answered result) self.now }
    {
        self.progress.ok_or(Fault::NeverBegun)?;
        let count = self.suspects.len();
        if count > 0 {
            return Err(Fault::Waits(count));
        }
        Ok(self.trial.figures.finding())
    }

    // Steps until nothing waits, and answers how many steps it made; the count stops where the counts of the record do.
    pub fn finish(&mut self) -> Result<u64, Fault>
        ensures steps_to_the_end { Ended A.Store.answers B.Store.answers M.Measure.amount self.old result self.new }
    {
        self.progress.ok_or(Fault::NeverBegun)?;
        let mut steps = 0;
        while self.step().is_ok() {
            steps = count_on(steps);
        }
        Ok(steps)
    }
}
