use std::io;

/// What a worker has counted.
#[derive(Clone, Copy)]
pub(crate) enum Figures {
    /// The reads per second of a reader.
    Reads(u64),
    /// The writes per second of the writer, and the median time of a write in nanoseconds.
    Writes { rate: u64, median: u64 },
}

/// What was measured.
#[derive(Drop)]
pub(crate) struct Results {
    /// The reads per second of each reader.
    pub(crate) reads: Vec<u64>,
    /// The writes per second of the writer.
    pub(crate) writes: u64,
    /// The median time of a write in nanoseconds.
    pub(crate) median: u64,
}

impl Results {
    /// Prints it, line by line.
    pub(crate) fn print(&self, rt: &impl Print) -> io::Result<()> {
        let mut all = 0u64;
        for reads in &self.reads {
            all = all.saturating_add(*reads);
            println!(rt; "a reader: {} reads a second", reads)?;
        }
        println!(rt; "all readers: {} reads a second", all)?;
        println!(rt; "the writer: {} writes a second", self.writes)?;
        println!(rt; "a write: {} nanoseconds in the median", self.median)
    }
}
