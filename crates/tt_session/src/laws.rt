//! Laws of the definitions that the contracts of this crate speak by. Each is the contract of a
//! function with an empty body.
ghost use Rattle.tt_session.specs.Invariants.{OpenSessionsStaySound, SessionsStaySound};
ghost use Rattle.tt_session.specs.ReadBack.{PrintedWritesReplace, PrintedActionsReplace};
ghost use Rattle.tt_session.specs.ReadBack.{PrintedTablesOpen};

/// Whatever an open session is asked, and whatever the fault of a line, it is sound afterwards: its
/// history is legal, there is room for the end of a repair that is under way, and no more records
/// are kept than may be.
#[tactic(auto, using(crate::proofs::SoundLemmas::open_sessions_stay_sound))]
pub fn open_sessions_stay_sound()
    ensures { OpenSessionsStaySound }
{}

/// Each session is sound after any lines, whichever of them found no memory.
#[tactic(auto, using(crate::proofs::SoundLemmas::sessions_stay_sound))]
pub fn sessions_stay_sound()
    ensures { SessionsStaySound }
{}

/// A write that can be carried out, put under `by` as it is printed, replaces the action of a slot
/// by this write alone.
pub fn printed_writes_replace()
    ensures { PrintedWritesReplace }
{}

/// An action that can be carried out, put under `by` with the members that it is printed as,
/// replaces the action of a slot by the same action, which is whole where that one is.
pub fn printed_actions_replace()
    ensures { PrintedActionsReplace }
{}

/// The members that tell the tables and how much is kept, as they are printed, open a session with
/// the same.
pub fn printed_tables_open()
    ensures { PrintedTablesOpen }
{}
