//! Slots, times and generations as a session tells them, and how they are read.
ghost use Rattle.tt_requests.specs.Told.{named_time, named_generation};

use std::alloc::Global;
use tt_grammar::DocFault;
use tt_grammar::decoding::{Decoder, count};
use tt_json::JsonValue;

/// A slot, or a time, as a session tells it. A database's own numbers are `u64`s: only a
/// [`Numbering`](crate::Numbering) turns the ones into the others.
#[derive(Clone, Copy, Debug, PartialEq, Eq)]
pub struct ToldTime {
    pub number: u64,
}

/// The number of a generation, as a session tells it.
#[derive(Clone, Copy, Debug, PartialEq, Eq)]
pub struct ToldGeneration {
    pub number: u64,
}

/// A slot or a time, by any count.
#[derive(Drop)]
pub(crate) struct ToldTimeDecoder;

impl Decoder for ToldTimeDecoder {
    type Output = ToldTime;

    ghost meaning = { λ _. named_time };

    fn decode<V: JsonValue>(&self, alloc: Global, value: &V) -> Result<ToldTime, DocFault> {
        let number = count(alloc, value)?;
        Ok(ToldTime { number })
    }
}

/// A generation, by any count.
#[derive(Drop)]
pub(crate) struct ToldGenerationDecoder;

impl Decoder for ToldGenerationDecoder {
    type Output = ToldGeneration;

    ghost meaning = { λ _. named_generation };

    fn decode<V: JsonValue>(&self, alloc: Global, value: &V) -> Result<ToldGeneration, DocFault> {
        let number = count(alloc, value)?;
        Ok(ToldGeneration { number })
    }
}
