/// The calls that are made.
#[derive(Clone, Copy)]
pub(crate) enum Mode {
    /// None: each insert is only built.
    Statements,
    /// Inserts by `apply`.
    ApplyInsert,
    /// Inserts by `advanced`.
    AdvancedInsert,
    /// Inserts, and then as many updates, by `apply`.
    ApplyUpdate,
    /// Inserts, and then as many updates, by `advanced`.
    AdvancedUpdate,
}

impl Mode {
    /// The mode with this name.
    fn named(name: &str) -> Option<Mode> {
        match name {
            "statements" => Some(Mode::Statements),
            "apply-insert" => Some(Mode::ApplyInsert),
            "advanced-insert" => Some(Mode::AdvancedInsert),
            "apply-update" => Some(Mode::ApplyUpdate),
            "advanced-update" => Some(Mode::AdvancedUpdate),
            _ => None,
        }
    }

    /// Its name on the command line.
    pub(crate) fn name(self) -> &'static str {
        match self {
            Mode::Statements => "statements",
            Mode::ApplyInsert => "apply-insert",
            Mode::AdvancedInsert => "advanced-insert",
            Mode::ApplyUpdate => "apply-update",
            Mode::AdvancedUpdate => "advanced-update",
        }
    }
}

/// What is measured.
#[derive(Clone, Copy)]
pub(crate) struct Plan {
    pub(crate) mode: Mode,
    /// The number of rows of the table, 1 to 500,000.
    pub(crate) rows: u32,
}

/// The plan that the words of the command line ask for, the program's name first.
pub(crate) fn plan_of(words: &[String]) -> Option<Plan> {
    let [_, mode, rows] = words else {
        return None;
    };
    let mode = Mode::named(mode.as_str())?;
    let rows = rows.parse::<u32>().ok()?;
    if 1 <= rows && rows <= 500_000 {
        Some(Plan { mode, rows })
    } else {
        None
    }
}
