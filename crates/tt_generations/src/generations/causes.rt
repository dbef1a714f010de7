//! Why a repair re-executed its slots.
ghost use Rattle.std.specs.Prelude.{◌≡◌, option_map};
ghost use Rattle.tt_generations.specs.SlotCauses.{cause_told, cause_at, next_redone_at};

use super::Generations;
use crate::cause::Cause;
use crate::search::count_up_to;

impl Generations {
    /// Of the slots that the repair has done, why it re-executed the one of a number, counted from
    /// 1. None where it didn't, and where no repair is under way. Takes no memory.
    pub fn cause(&self, number: u64) -> Option<Cause<'_>>
        ensures { option_map cause_told result
            ≡ cause_at self.now.catalog self.now.phase self.now.slots number }
    {
        let repair = self.state.repair.as_ref()?;
        if number > repair.done {
            return None;
        }
        let position = number.checked_sub(1)?;
        let kept = self.state.slots.get(position as usize)?;
        repair.cause(number, kept)
    }

    /// Of the slots that the repair has done, the number of the first one behind `number` that it
    /// re-executed. None where there is no such slot, and where no repair is under way. Takes no
    /// memory, and time logarithmic in the number of re-executed slots.
    pub fn next_redone(&self, number: u64) -> Option<u64>
        ensures { result
            ≡ next_redone_at self.now.catalog self.now.phase self.now.slots number }
    {
        let repair = self.state.repair.as_ref()?;
        let place = count_up_to(&repair.reexecuted, number);
        repair.reexecuted.get(place).copied()
    }
}
