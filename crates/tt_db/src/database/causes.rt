//! Why repairs re-executed their slots.
ghost use Rattle.std.specs.Prelude.{◌≡◌};
ghost use Rattle.std.specs.Option.{option_map};
ghost use Rattle.tt_generations.specs.SlotCauses.{cause_told};
ghost use Rattle.tt_db.specs.Causes.{cause_of, cause_in_of, next_redone_of, next_redone_in_of};

use super::Db;
use tt_generations::Cause;

impl Db {
    /// Of the slots that the repair has done, why it re-executed the one of a number, counted from
    /// 1. None where it didn't, and where no repair is under way. Takes no memory.
    pub fn cause(&self, number: u64) -> Option<Cause<'_>>
        ensures { option_map cause_told result ≡ cause_of self.now number }
    {
        self.parts.generations.cause(number)
    }

    /// Why the repair that closed a generation re-executed the slot of a number, counted from 1;
    /// for the current generation as [`cause`](Db::cause). None where it didn't, where there is no
    /// such slot, and for a generation that can't be read. Takes no memory.
    pub fn cause_in(&self, generation: u64, number: u64) -> Option<Cause<'_>>
        ensures { option_map cause_told result ≡ cause_in_of self.now generation number }
    {
        let generations = self.generations_of(generation)?;
        generations.cause(number)
    }

    /// Of the slots that the repair has done, the number of the first one behind `number` that it
    /// re-executed. None where there is no such slot, and where no repair is under way. Takes no
    /// memory, and time logarithmic in the number of re-executed slots.
    pub fn next_redone(&self, number: u64) -> Option<u64>
        ensures { result ≡ next_redone_of self.now number }
    {
        self.parts.generations.next_redone(number)
    }

    /// As [`next_redone`](Db::next_redone), of the repair that closed a generation; for the current
    /// generation of the repair under way. None also for a generation that can't be read.
    pub fn next_redone_in(&self, generation: u64, number: u64) -> Option<u64>
        ensures { result ≡ next_redone_in_of self.now generation number }
    {
        let generations = self.generations_of(generation)?;
        generations.next_redone(number)
    }
}
