//! Versions: of the grammar, of documents, and of sessions.
ghost use Rattle.std.specs.Prelude.{◌≡◌};
ghost use Rattle.tt_grammar.specs.Version.{version_numbered, version, newest_version};

use crate::decoder::{Decoder, OUT_OF_RANGE, count};
use crate::fault::DocFault;
use std::alloc::Global;
use tt_json::JsonValue;

/// The least version that the opening of a session may name.
pub const OLDEST_SESSION_VERSION: u32 = 2;

/// The greatest version that the opening of a session may name, which a session tells as its own.
pub const NEWEST_SESSION_VERSION: u32 = 4;

/// The version of the grammar, by which a document is read as of its own version. Version 2 is
/// version 1 with another kind of call, `do`. Version 3 is version 2 with conditions that compare,
/// and with actions that are carried out wholly or not at all.
#[derive(Clone, Copy, Debug)]
pub enum Version {
    One,
    Two,
    Three,
}

impl Version {
    /// The newest version, as of which each line of a session and of a log is read.
    pub fn newest() -> Version
        ensures { result ≡ newest_version }
    {
        Version::Three
    }
}

/// The version of a document, by its number.
#[derive(Drop)]
pub struct VersionDecoder;

impl Decoder for VersionDecoder {
    type Output = Version;

    ghost meaning = { λ _. version };

    fn decode<V: JsonValue>(&self, alloc: Global, value: &V) -> Result<Version, DocFault> {
        let number = count(alloc, value)?;
        match version_numbered(number) {
            Some(version) => Ok(version),
            None => Err(DocFault::here(alloc, OUT_OF_RANGE)),
        }
    }
}

fn version_numbered(number: u64) -> Option<Version>
    ensures { result ≡ version_numbered number }
{
    match number {
        1 => Some(Version::One),
        2 => Some(Version::Two),
        3 => Some(Version::Three),
        _ => None,
    }
}
