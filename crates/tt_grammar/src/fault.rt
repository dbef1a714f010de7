ghost use Rattle.std.specs.Prelude.{◌≡◌, MatchResult, string_bytes};
ghost use Rattle.tt_grammar.specs.Fault.{IsFault, fault_here};

use std::alloc::{AllocError, AllocFailed, Global};
use tt_values::Text;

/// Why a document, or a line of a session, is refused.
#[derive(Debug, PartialEq, Drop)]
pub enum DocFault {
    /// The first fault: where it is, and what it is.
    At { path: Text, cause: Text },
    /// Memory ran out. Nothing is said of what was read.
    Memory,
}

impl From<AllocError> for DocFault {
    ghost use Rattle.std.specs.Prelude.{◌≡◌};
    ghost use Rattle.tt_grammar.specs.declared.fault.DocFault.TheVariants.{Memory};

    ghost from_gives = { λ _ e. e ≡ Memory };

    fn from(_error: AllocError) -> DocFault {
        DocFault::Memory
    }
}

impl<T: Drop> From<AllocFailed<T>> for DocFault {
    ghost use Rattle.std.specs.Prelude.{◌≡◌};
    ghost use Rattle.tt_grammar.specs.declared.fault.DocFault.TheVariants.{Memory};

    ghost from_gives = { λ _ e. e ≡ Memory };

    fn from(_error: AllocFailed<T>) -> DocFault {
        DocFault::Memory
    }
}

impl DocFault {
    ghost use Rattle.tt_grammar.specs.Fault.{IsFault, fault_here, fault_at, member_path, item_path, document_path, document_fault};

    /// A fault of a whole document, with its cause. The path is `$`.
    pub fn of_document(alloc: Global, cause: &str) -> DocFault
        ensures { IsFault result (document_fault cause.now) }
    {
        DocFault::here(alloc, cause).in_document(alloc)
    }

    /// A fault of the value itself, with its cause. The path is empty.
    pub fn here(alloc: Global, cause: &str) -> DocFault
        ensures { IsFault result (fault_here cause.now) }
    {
        DocFault::because(alloc, String::from_str(alloc, cause))
    }

    /// The same, with the text of the cause, or `Memory` where there was no memory for it.
    pub fn because(alloc: Global, cause: Result<String, AllocError>) -> DocFault
        ensures { MatchResult cause
            (λ text. IsFault result (fault_here (string_bytes text)))
            (λ _. result ≡ DocFault.Memory) }
    {
        match cause {
            Ok(cause) => fault_because(alloc, cause),
            Err(AllocError) => DocFault::Memory,
        }
    }

    /// The fault of a member's value, as one of the object.
    pub fn in_member(self, alloc: Global, name: &str) -> DocFault
        ensures { IsFault result (fault_at (member_path name.now) self) }
    {
        let DocFault::At { path, cause } = self else {
            return DocFault::Memory;
        };
        let inner = path.as_str();
        fault_if_path(alloc, format!(in alloc; ".{name}{inner}"), cause)
    }

    /// The fault of an item, as one of the array.
    pub fn in_item(self, alloc: Global, index: usize) -> DocFault
        ensures { IsFault result (fault_at (item_path index) self) }
    {
        let DocFault::At { path, cause } = self else {
            return DocFault::Memory;
        };
        let inner = path.as_str();
        fault_if_path(alloc, format!(in alloc; "[{index}]{inner}"), cause)
    }

    /// The fault of the whole value, as one of the document.
    pub fn in_document(self, alloc: Global) -> DocFault
        ensures { IsFault result (fault_at document_path self) }
    {
        let DocFault::At { path, cause } = self else {
            return DocFault::Memory;
        };
        let inner = path.as_str();
        fault_if_path(alloc, format!(in alloc; "${inner}"), cause)
    }
}

/// A fault of the value itself, or `Memory` where there is no memory for its texts.
fn fault_because(alloc: Global, cause: String) -> DocFault
    ensures { IsFault result (fault_here (string_bytes cause)) }
{
    match Text::new(alloc, cause) {
        Ok(cause) => fault_if_path(alloc, Ok(String::new(alloc)), cause),
        Err(AllocError) => DocFault::Memory,
    }
}

/// A fault at a path, or `Memory` where there was no memory for the text of the path.
fn fault_if_path(alloc: Global, path: Result<String, AllocError>, cause: Text) -> DocFault
    ensures { MatchResult path
        (λ p. IsFault result (DocFault.At (string_bytes p) cause))
        (λ _. result ≡ DocFault.Memory) }
{
    match path {
        Ok(path) => fault_at_path(alloc, path, cause),
        Err(AllocError) => DocFault::Memory,
    }
}

/// A fault at a path, or `Memory` where there is no memory to share the path.
fn fault_at_path(alloc: Global, path: String, cause: Text) -> DocFault
    ensures { IsFault result (DocFault.At (string_bytes path) cause) }
{
    match Text::new(alloc, path) {
        Ok(path) => DocFault::At { path, cause },
        Err(AllocError) => DocFault::Memory,
    }
}
