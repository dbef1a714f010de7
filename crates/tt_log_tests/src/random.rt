//! Numbers that look random and are the same in each run.
use std::alloc::Global;
use std::process::Abort;

#[derive(Drop)]
pub(crate) struct Random {
    state: u64,
}

impl Random {
    pub(crate) fn new(seed: u64) -> Self {
        Random { state: seed }
    }

    fn next(&mut self) -> u64 {
        self.state = self
            .state
            .wrapping_mul(6_364_136_223_846_793_005)
            .wrapping_add(1_442_695_040_888_963_407);
        self.state >> 33
    }

    /// A number below another, or 0.
    pub(crate) fn below(&mut self, limit: usize) -> usize {
        self.next() as usize % limit.max(1)
    }

    /// So many choices.
    pub(crate) fn choices(&mut self, rt: &impl Abort, alloc: Global, count: usize) -> Vec<bool> {
        let mut choices = Vec::new(alloc);
        for _ in 0..count {
            let choice = self.below(2) == 1;
            choices.push(choice).expect(rt, "memory");
        }
        choices
    }
}
