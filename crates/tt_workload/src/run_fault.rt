ghost use Rattle.std.specs.Prelude.{◌≡◌};

use std::alloc::{AllocError, AllocFailed, Global};
use tt_db::ReadError;
use tt_document::DocFault;
use tt_streams::StreamError;
use tt_values::Text;

/// Why a run of a workload failed.
#[derive(Debug, PartialEq, Drop)]
pub enum RunFault {
    /// The reader failed, or was interrupted too often.
    Read,
    /// The document is faulty. The fault is never `DocFault::Memory`.
    Document(DocFault),
    /// The store refused a call that a document may make. The text says why.
    Store(Text),
    /// The writer failed, took no byte, or was interrupted too often.
    Write,
    /// Memory ran out.
    Memory,
}

impl From<AllocError> for RunFault {
    ghost use Rattle.tt_workload.specs.declared.run_fault.RunFault.TheVariants.{Memory};

    ghost from_gives = { λ _ e. e ≡ Memory };

    fn from(_error: AllocError) -> RunFault {
        RunFault::Memory
    }
}

impl<T: Drop> From<AllocFailed<T>> for RunFault {
    ghost use Rattle.tt_workload.specs.declared.run_fault.RunFault.TheVariants.{Memory};

    ghost from_gives = { λ _ e. e ≡ Memory };

    fn from(_error: AllocFailed<T>) -> RunFault {
        RunFault::Memory
    }
}

impl RunFault {
    /// A refusal of a read, as a fault of the run.
    pub(crate) fn of_read(alloc: Global, error: ReadError) -> RunFault
        ensures { error ≡ ReadError.Memory → result ≡ RunFault.Memory }
    {
        match error {
            ReadError::Memory => RunFault::Memory,
            error => store_fault(alloc, format!(in alloc; "{error}")),
        }
    }
}

fn store_fault(alloc: Global, text: Result<String, AllocError>) -> RunFault {
    match text_of(alloc, text) {
        Ok(text) => RunFault::Store(text),
        Err(AllocError) => RunFault::Memory,
    }
}

fn text_of(alloc: Global, text: Result<String, AllocError>) -> Result<Text, AllocError> {
    let text = text?;
    Text::new(alloc, text)
}

impl From<DocFault> for RunFault {
    ghost use Rattle.tt_workload.specs.RunFault.{run_fault_of};

    ghost from_gives = { λ fault e. e ≡ run_fault_of fault };

    fn from(fault: DocFault) -> RunFault {
        match fault {
            DocFault::Memory => RunFault::Memory,
            fault => RunFault::Document(fault),
        }
    }
}

impl From<StreamError> for RunFault {
    ghost use Rattle.tt_workload.specs.RunFault.{run_fault_of_stream};

    ghost from_gives = { λ error e. e ≡ run_fault_of_stream error };

    fn from(error: StreamError) -> RunFault {
        match error {
            StreamError::Read => RunFault::Read,
            StreamError::Write => RunFault::Write,
        }
    }
}
