//! What a store refuses, as faults of a run.
ghost use Rattle.std.specs.Prelude.{◌≡◌};
ghost use Rattle.tt_workers.specs.Faults.{IsStoreFault, IsFaultOfClose};

use std::alloc::{AllocError, Global};
use std::sync::Wait;
use tt_db::ReadError;
use tt_store::{CloseFault, Gate, Naming, OpenError, StoreError};
use tt_values::Text;
use tt_workload::RunFault;

/// The fault where a store isn't opened.
pub(crate) fn fault_of_open(alloc: Global, error: OpenError) -> RunFault
    ensures fault { IsStoreFault result }
    ensures memory { error ≡ OpenError.Memory → result ≡ RunFault.Memory }
{
    match error {
        OpenError::Memory => RunFault::Memory,
        error => store_fault(alloc, format!(in alloc; "{error}")),
    }
}

/// The fault where a store refuses a call.
pub(crate) fn fault_of_call(alloc: Global, error: StoreError) -> RunFault
    ensures fault { IsStoreFault result }
    ensures memory { error ≡ StoreError.Memory → result ≡ RunFault.Memory }
{
    match error {
        StoreError::Memory => RunFault::Memory,
        error => store_fault(alloc, format!(in alloc; "{error}")),
    }
}

/// The fault where a read fails.
pub(crate) fn fault_of_read(alloc: Global, error: ReadError) -> RunFault
    ensures fault { IsStoreFault result }
    ensures memory { error ≡ ReadError.Memory → result ≡ RunFault.Memory }
{
    match error {
        ReadError::Memory => RunFault::Memory,
        error => store_fault(alloc, format!(in alloc; "{error}")),
    }
}

/// The fault where a store isn't closed.
pub(crate) fn fault_of_close<L: Naming, G: Gate + Drop, R: Wait + Drop>(
    alloc: Global,
    fault: CloseFault<L, G, R>,
) -> RunFault
    ensures { IsFaultOfClose fault result }
{
    match fault {
        CloseFault::Missing { .. } => store_fault(
            alloc,
            String::from_str(alloc, "a worker is missing"),
        ),
        CloseFault::NoReading { .. } => store_fault(alloc, String::from_str(alloc, "no reading")),
        CloseFault::Memory { .. } => RunFault::Memory,
    }
}

/// The fault with this text, or `Memory` where there is no memory for it.
fn store_fault(alloc: Global, text: Result<String, AllocError>) -> RunFault
    ensures { IsStoreFault result }
{
    match text_of(alloc, text) {
        Ok(text) => RunFault::Store(text),
        Err(AllocError) => RunFault::Memory,
    }
}

fn text_of(alloc: Global, text: Result<String, AllocError>) -> Result<Text, AllocError> {
    let text = text?;
    Text::new(alloc, text)
}
