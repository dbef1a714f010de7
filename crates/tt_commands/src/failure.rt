use std::alloc::{AllocError, AllocFailed};
use tt_answers::Refusal;
use tt_db::{DbError, ReadError};

/// Why a request isn't carried out.
#[derive(Debug, Drop)]
pub enum Failure {
    /// It is refused, and the session stays as it is.
    Refused(Refusal),
    /// There is no memory for the request. Nothing is said of its refusals.
    Memory,
}

impl From<AllocError> for Failure {
    ghost use Rattle.std.specs.Prelude.{◌≡◌};
    ghost use Rattle.tt_commands.specs.declared.failure.Failure.TheVariants.{Memory};

    ghost from_gives = { λ _ e. e ≡ Memory };

    fn from(_error: AllocError) -> Failure {
        Failure::Memory
    }
}

impl<T: Drop> From<AllocFailed<T>> for Failure {
    ghost use Rattle.std.specs.Prelude.{◌≡◌};
    ghost use Rattle.tt_commands.specs.declared.failure.Failure.TheVariants.{Memory};

    ghost from_gives = { λ _ e. e ≡ Memory };

    fn from(_error: AllocFailed<T>) -> Failure {
        Failure::Memory
    }
}

impl From<DbError> for Failure {
    ghost use Rattle.std.specs.Prelude.{◌≡◌};
    ghost use Rattle.tt_commands.specs.Failures.{failure_of_event};

    ghost from_gives = { λ error failure. failure ≡ failure_of_event error };

    fn from(error: DbError) -> Failure {
        match error {
            DbError::Memory => Failure::Memory,
            error => Failure::Refused(Refusal::Event(error)),
        }
    }
}

impl From<ReadError> for Failure {
    ghost use Rattle.std.specs.Prelude.{◌≡◌};
    ghost use Rattle.tt_commands.specs.Failures.{failure_of_read};

    ghost from_gives = { λ error failure. failure ≡ failure_of_read error };

    fn from(error: ReadError) -> Failure {
        match error {
            ReadError::Memory => Failure::Memory,
            error => Failure::Refused(Refusal::Read(error)),
        }
    }
}
