//! Laws of the definitions that the contracts of this crate speak by. Each is the contract of a
//! function with an empty body.
ghost use Rattle.tt_grammar.specs.ReadBack.{WritesAreReadBack, ActionsAreReadBack};
ghost use Rattle.tt_grammar.specs.ReadBack.{TablesAreReadBack};
ghost use Rattle.tt_grammar.specs.NewestVersion.{NewestVersionReadsTheSame};

/// A write that can be carried out is printed as JSON that the newest version reads as the same
/// write: among the writes of an action, and where it replaces the action of a slot.
pub fn writes_are_read_back()
    ensures { WritesAreReadBack }
{}

/// An action that can be carried out is printed as JSON that the newest version reads as the same
/// action: its writes under `do`, and the whole where it replaces the action of a slot.
pub fn actions_are_read_back()
    ensures { ActionsAreReadBack }
{}

/// The tables of a catalog are printed as JSON that is read as the same tables.
pub fn tables_are_read_back()
    ensures { TablesAreReadBack }
{}

/// What has no fault in a version is read the same in the newest one: the conditions on a table, a
/// write, an action, and an action that replaces another.
pub fn newest_version_reads_the_same()
    ensures { NewestVersionReadsTheSame }
{}
