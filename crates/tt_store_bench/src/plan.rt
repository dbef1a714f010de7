/// What is measured.
#[derive(Clone, Copy)]
pub(crate) struct Plan {
    /// The number of workers that read, 0 to 15.
    pub(crate) readers: u32,
    /// The length of the measurement in seconds.
    pub(crate) seconds: u32,
    /// The number of rows of the table, 1 to 900,000.
    pub(crate) rows: u32,
}

impl Plan {
    /// The length of the measurement in nanoseconds.
    pub(crate) fn nanoseconds(&self) -> u64 {
        u64::from(self.seconds).saturating_mul(1_000_000_000)
    }
}

/// The plan that the words of the command line ask for, the program's name first.
pub(crate) fn plan_of(words: &[String]) -> Option<Plan> {
    let [_, readers, seconds, rows] = words else {
        return None;
    };
    let readers = number_within(readers, 0, 15)?;
    let seconds = number_within(seconds, 1, 60)?;
    let rows = number_within(rows, 1, 900_000)?;
    Some(Plan {
        readers,
        seconds,
        rows,
    })
}

fn number_within(word: &String, least: u32, most: u32) -> Option<u32> {
    let number = word.parse::<u32>().ok()?;
    if least <= number && number <= most {
        Some(number)
    } else {
        None
    }
}
