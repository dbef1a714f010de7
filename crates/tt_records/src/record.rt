use tt_values::{Items, Reply, Select};

/// A call as it was answered.
#[derive(Debug, PartialEq)]
pub struct Record {
    /// The number of the call, from 1.
    pub call: u64,
    /// The number of the worker that made it, from 1.
    pub worker: u32,
    /// What it asked for, and its answer.
    pub what: What,
}

// Written out, so that each place that lets a record go calls one function.
impl Drop for Record {
    fn drop(self) {
        let Record {
            call: _,
            worker: _,
            what: _,
        } = self;
    }
}

/// What a call asked for, and its answer.
#[derive(Debug, PartialEq, Drop)]
pub enum What {
    /// An action took a slot, and has these replies to its writes, of a whole action up to the first
    /// without an effect.
    Write {
        slot: u64,
        replies: Items<Reply>,
    },
    /// A select was answered by the rows of a time.
    Read {
        select: Select,
        time: u64,
        reply: Reply,
    },
    /// A preview was answered by the rows of the next generation when `done` slots were done.
    Preview {
        done: u64,
        reply: Reply,
    },
    /// The time that was asked for was later than the current time.
    Later {
        now: u64,
    },
    /// No repair was under way, so there was nothing to preview.
    NotRepairing,
}
