//! Laws of the definitions. Each is the contract of a function with an empty body.
ghost use Rattle.tt_horizon.specs.Laws.{ForgettingKeepsContents, ForgettingKeepsRepairs, GroundIsNeverDue, GroundLeavesContent, GroundIsSmall, ForgettingIsSound};

/// From the time of forgetting on, the contents are those of the slots that haven't forgotten.
pub fn forgetting_keeps_contents()
    ensures { ForgettingKeepsContents }
{}

/// A repair that edits only slots behind the time of forgetting is the same as without forgetting:
/// the dirty rows and partitions, the slots that are due, the contents on both sides, the replies.
pub fn forgetting_keeps_repairs()
    ensures { ForgettingKeepsRepairs }
{}

/// No slot of the ground is due in a repair that edits only slots behind the time of forgetting.
pub fn ground_is_never_due()
    ensures { GroundIsNeverDue }
{}

/// The ground of a content leaves this content.
pub fn ground_leaves_the_content()
    ensures { GroundLeavesContent }
{}

/// The ground has no more actions than there were slots up to its time.
pub fn ground_is_small()
    ensures { GroundIsSmall }
{}

/// A database that forgets what lies before a time keeps its contents from then on, its history is
/// legal again, and it has no more entries and no more slots than before.
pub fn forgetting_is_sound()
    ensures { ForgettingIsSound }
{}
