// The job: both films are read, and then compared.
ghost use Rattle.std.specs.Prelude.{◌≡◌, MatchResult};
ghost use Rattle.board.specs.Distances.{distance as distance_of};
ghost use Rattle.job.specs.Failures.{Stopped};
ghost use Rattle.job.specs.Films.{FilmRead, FilmRefused, JobRefused, Compared};
ghost use Rattle.job.specs.Faults.{part_of, part_numbered};
ghost use Rattle.job.specs.Records.{records};

use crate::failure::Failure;
use crate::fault::{JobFault, PartFault};
use crate::records::{check_records, codes_of};
use board::finding::Finding;
use board::list::check_list;
use board::measure::Measure;
use board::side::Side;
use scan::directed::scan;
use std::alloc::Global;

// The codes of a film: its records, which have to be in cell order.
pub fn read_film(heap: Global, bytes: &[u8]) -> Result<Vec<u32>, Failure<PartFault>>
    ensures read_or_refused { MatchResult result (λ v. FilmRead bytes.now × (v.items ≡ records bytes.now)) (λ e. Stopped e (λ f. FilmRefused bytes.now (part_of f) (part_numbered f))) }
{
    check_records(bytes)?;
    let codes = codes_of(heap, bytes)?;
    check_list(codes.as_slice())?;
    Ok(codes)
}

// The codes of the film A and of the drawing B.
#[derive(Drop)]
pub struct Films {
    pub film: Vec<u32>,
    pub drawing: Vec<u32>,
}

// Both films; all of A is read before B. Bytes come as two arguments, as in a distance from a to b.
pub fn read_films(heap: Global, a: &[u8], b: &[u8]) -> Result<Films, Failure<JobFault>>
    ensures read_or_refused { MatchResult result (λ v. FilmRead a.now × FilmRead b.now × (v.film.items ≡ records a.now) × (v.drawing.items ≡ records b.now)) (λ e. Stopped e (λ f. JobRefused a.now b.now f.side (part_of f.fault) (part_numbered f.fault))) }
{
    let film = read_film(heap, a).map_err(|failure| failure.on(Side::Film))?;
    let drawing = read_film(heap, b).map_err(|failure| failure.on(Side::Drawing))?;
    Ok(Films { film, drawing })
}

// How far the film A strays from the drawing B. Both are read before they are compared.
pub fn compare_films<M: Measure>(
    heap: Global,
    a: &[u8],
    b: &[u8],
    m: &M,
) -> Result<Finding, Failure<JobFault>>
    ensures strays_or_refused { Compared (distance_of (M.Measure.amount m.now)) a.now b.now result }
{
    let films = read_films(heap, a, b)?;
    Ok(scan(films.film.as_slice(), films.drawing.as_slice(), m)?)
}

#[cfg(test)]
mod tests {
    use super::*;

    // The cell (1, 2) has the code 9, the cell (3, 0) the code 5.
    #[test]
    fn both_films_are_read(rt: HostRuntime) {
        let heap = rt.alloc();
        let films = read_films(heap, &[1, 0, 2, 0], &[3, 0, 0, 0]).expect(&rt, "both are in order");
        assert_eq!(rt; films.film.as_slice(), [9u32].as_slice());
        assert_eq!(rt; films.drawing.as_slice(), [5u32].as_slice());
    }
}
