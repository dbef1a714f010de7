use crate::DeviceError;
use thiserror::Error;

/// Why a log is given up. What a device has done that failed is unknown, so the file has to be
/// opened anew: a crash may leave what the call says, and nothing else.
#[derive(Clone, Copy, Debug, PartialEq, Eq, Error)]
pub enum LogError {
    /// The file can't be read, or its length can't be told, or is 2^60 bytes or more.
    #[error("cannot read the log")]
    Read,
    /// The file can't be written, made longer or synced.
    #[error("cannot write the log")]
    Write,
    /// The file would be longer than 2^60 bytes. Nothing was written.
    #[error("the log is full")]
    Full,
    /// The answers can't be handed over, or no more than their first bytes. The lines are logged.
    #[error("cannot write")]
    HandOver,
}

impl From<DeviceError> for LogError {
    ghost use Rattle.std.specs.Prelude.{◌≡◌};
    ghost use Rattle.tt_log.specs.declared.log_error.LogError.TheVariants.{Write};

    ghost from_gives = { λ _ e. e ≡ Write };

    fn from(_error: DeviceError) -> LogError {
        LogError::Write
    }
}

/// Why a new file doesn't take the place of a file.
#[derive(Clone, Copy, Debug, PartialEq, Eq, Error)]
pub enum RenewError {
    /// The new file can't be finished, synced or named. The old file is as it was, and a log goes
    /// on in it.
    #[error("cannot make the log anew")]
    Kept,
    /// Nobody knows which of the two files has the name; or the new one has it, but its folder
    /// can't be synced. A crash leaves the old file or the new one, and a log is not to be used any
    /// more.
    #[error("cannot keep the log that was made anew")]
    Lost,
}

// Where making the new file fails, the file has its name.
impl From<DeviceError> for RenewError {
    ghost use Rattle.std.specs.Prelude.{◌≡◌};
    ghost use Rattle.tt_log.specs.declared.log_error.RenewError.TheVariants.{Kept};

    ghost from_gives = { λ _ e. e ≡ Kept };

    fn from(_error: DeviceError) -> RenewError {
        RenewError::Kept
    }
}
