//! Laws of the definitions that the contracts of this crate speak by. Each is the contract of a
//! function with an empty body.
ghost use Rattle.tt_durable.specs.LogReadBack.{PrintedLogOpens, PrintedGroundIsRead};
ghost use Rattle.tt_durable.specs.LogReadBack.{PrintedSlotsAreRead, OpeningsHaveNoGround};
ghost use Rattle.tt_durable.specs.Restoring.{LogsAreReadBack, LogsAreReadInOneWay};

/// What a session has logged, and the first lines of that, however many a crash has left, are the
/// lines of a log from which the next session begins: each changes the database again, and they
/// make the database and the stamps that the session had behind these lines, with its numbers told
/// alike.
pub fn logs_are_read_back()
    ensures { LogsAreReadBack }
{}

/// A log is read back in one way: the lines of a log make one session, and no line of them is
/// refused as none. So the next session on a log begins with the one that
/// [`logs_are_read_back`] tells of.
pub fn logs_are_read_in_one_way()
    ensures { LogsAreReadInOneWay }
{}

/// The first line of a log that is made anew, as it is printed, opens a log with the same tables,
/// the same that is kept, and the same ground. It opens no session.
pub fn printed_log_opens()
    ensures { PrintedLogOpens }
{}

/// The line of a slot of the ground, whose action isn't whole, is read, as it is printed, as the
/// same action.
pub fn printed_ground_is_read()
    ensures { PrintedGroundIsRead }
{}

/// The line of a further slot, as it is printed, is a request of the same worker for the same
/// action, with the same stamp.
pub fn printed_slots_are_read()
    ensures { PrintedSlotsAreRead }
{}

/// What opens a session opens no log that was made anew.
pub fn openings_have_no_ground()
    ensures { OpeningsHaveNoGround }
{}
