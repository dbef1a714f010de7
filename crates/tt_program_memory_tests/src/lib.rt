//! Calls of a store, of what stands on it, of documents and of sessions, that meet want of memory.
//! Each test makes calls between two marks, and expects of each what it returns with memory or
//! without; where it had none, it is made again. With ample memory the tests pass as any others.
//! `tests/hostile.py` runs them again and again, and refuses one growth of memory after another,
//! between the marks.
#![tactic(auto)]

#[cfg(test)]
mod memory;
