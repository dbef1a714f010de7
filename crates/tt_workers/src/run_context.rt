use std::alloc::Global;
use std::sync::Wait;
use tt_store::{Gate, Naming, Store};
use tt_workload::Options;

/// What the steps of a run share: the handle, the allocator, the store, the gate and the options.
#[derive(Drop)]
pub(crate) struct RunContext<'a, 'r, L: Naming, G: Gate + Drop, R: Wait> {
    pub(crate) rt: &'r R,
    pub(crate) alloc: Global,
    pub(crate) store: &'a Store<L, G, &'r R>,
    pub(crate) gate: G,
    pub(crate) options: Options,
}
