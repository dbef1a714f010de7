//! What tells whoever watches memory where a stretch begins and ends: blocks of sizes that nobody
//! gives are asked for. `tests/refuse_growth.c` watches memory.
use std::alloc::Global;

/// Begins and ends a stretch in which growths are counted, and one of them may be refused.
const CALLS: usize = (1 << 62) + 1;

/// Begins and ends a stretch without growths.
const QUIET: usize = (1 << 62) + 3;

/// Begins and ends a stretch after which as many blocks are in use as before.
const TALLY: usize = (1 << 62) + 5;

fn asks_for(alloc: Global, bytes: usize) {
    let _refused = Vec::<u8>::with_capacity(alloc, bytes);
}

/// A call begins, or has ended.
pub fn mark(alloc: Global) {
    asks_for(alloc, CALLS);
}

/// Calls that take no memory begin, or have ended.
pub fn quiet(alloc: Global) {
    asks_for(alloc, QUIET);
}

/// What is taken while there is a tally is given back before it goes.
pub struct Tally {
    alloc: Global,
}

impl Tally {
    /// From here on blocks are counted, until this goes.
    pub fn new(alloc: Global) -> Tally {
        asks_for(alloc, TALLY);
        Tally { alloc }
    }
}

impl Drop for Tally {
    fn drop(self) {
        let Tally { alloc } = self;
        asks_for(alloc, TALLY);
    }
}
