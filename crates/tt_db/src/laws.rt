//! Laws of the definitions that the contracts of this crate use. Each is the contract of a
//! function with an empty body.
ghost use Rattle.tt_db.specs.Laws.{RowsHaveTheirKeys, LastGenerationsAreKept, EachSlotHasItsPlace, RepairsKeepTheirWorker, SwitchesKeepWhatIsTold};

/// After a legal history each row begins with an Int, which is the key that it is stored under: in
/// each generation that can be read at every time, and in the next one at the last slot that the
/// repair has done.
pub fn rows_have_their_keys()
    ensures { RowsHaveTheirKeys }
{}

/// The closed generations that are kept are the last ones before the current one, each numbered
/// one higher than the one before it, and no more than the limit.
pub fn last_generations_are_kept()
    ensures { LastGenerationsAreKept }
{}

/// Each slot has its place in the history: the place of the write that made it.
pub fn each_slot_has_its_place()
    ensures { EachSlotHasItsPlace }
{}

/// A repair is of the worker that began it until it is switched to or given up, whoever asks for
/// its steps and for writes meanwhile.
pub fn repairs_keep_their_worker()
    ensures { RepairsKeepTheirWorker }
{}

/// Where closed generations are kept, a repair that has done all slots is told of after its switch
/// as it was just before it: why it re-executed its slots, and which rows differ.
pub fn switches_keep_what_is_told()
    ensures { SwitchesKeepWhatIsTold }
{}
