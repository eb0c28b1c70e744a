// How a call that allocates fails: it is refused, or finds no memory.
ghost use Rattle.std.specs.Prelude.{◌≡◌};
ghost use Rattle.job.specs.Failures.{refusal_of};
ghost use Rattle.job.specs.declared.failure.Failure.TheVariants.{NoMemory};

use std::alloc::{AllocError, AllocFailed as NotPlaced};

#[derive(Clone, Copy, PartialEq, Eq, Debug)]
pub enum Failure<F> {
    Refused(F),
    NoMemory,
}

impl<F: Drop> Failure<F> {
    // The fault, where memory was not wanting.
    pub fn refusal(self) -> Result<F, AllocError>
        ensures fault_or_no_memory { result ≡ refusal_of self }
    {
        match self {
            Failure::Refused(fault) => Ok(fault),
            Failure::NoMemory => Err(AllocError),
        }
    }
}

impl<F> From<AllocError> for Failure<F> {
    ghost from_gives = { λ _ r. r ≡ NoMemory };

    fn from(_error: AllocError) -> Failure<F> {
        Failure::NoMemory
    }
}

// What `?` takes of a push, which hands its value back.
impl<F, T: Drop> From<NotPlaced<T>> for Failure<F> {
    ghost from_gives = { λ _ r. r ≡ NoMemory };

    fn from(_error: NotPlaced<T>) -> Failure<F> {
        Failure::NoMemory
    }
}
