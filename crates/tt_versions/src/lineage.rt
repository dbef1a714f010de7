ghost use Rattle.std.specs.Prelude.{◌≡◌, is_some, OnOk};
ghost use Rattle.std.specs.Option.{option_copied};

use crate::next_chain::NextChain;
use crate::row_write::RowWrite;
use crate::side::Side;
use crate::version_chain::VersionChain;
use std::alloc::{AllocError, Global};
use tt_pages::Kept;
use tt_values::{Equal, Row, matches};

/// The versions of one row. A row that isn't split has one chain, which both sides share. The
/// chain that a version stands in says which generation it belongs to.
#[derive(Debug, Drop)]
pub(crate) struct Lineage {
    current: VersionChain,
    /// The next side's own chain, where the row is split.
    next: Option<NextChain>,
}

impl Lineage {
    ghost use Rattle.tt_versions.specs.Versions.{visible_row};
    ghost use Rattle.tt_versions.specs.Matching.{if_matching};
    ghost use Rattle.tt_versions.specs.Sides.{just_before};
    ghost use Rattle.tt_versions.specs.Lineage.{unwritten, chain_on, with_write_on, split_back, unsplit};

    /// A row that was never written.
    pub(crate) fn new(alloc: Global) -> Lineage
        ensures { result ≡ unwritten }
    {
        Lineage {
            current: VersionChain::new(alloc),
            next: None,
        }
    }

    pub(crate) fn is_split(&self) -> bool
        ensures { result ≡ is_some self.now.next }
    {
        self.next.is_some()
    }

    /// The row at the time on that side.
    pub(crate) fn at(&self, time: u64, side: Side) -> Option<&Row>
        ensures { option_copied result ≡ visible_row time (chain_on side self.now) }
    {
        self.chain(side).at(time)
    }

    /// The row just before the time on that side.
    pub(crate) fn before(&self, time: u64, side: Side) -> Option<&Row>
        ensures { option_copied result
            ≡ just_before time (λ u. visible_row u (chain_on side self.now)) }
    {
        let earlier = time.checked_sub(1)?;
        self.at(earlier, side)
    }

    /// The row at the time on that side, if it matches.
    pub(crate) fn matching(&self, equals: &[Equal], time: u64, side: Side) -> Option<&Row>
        ensures { option_copied result
            ≡ if_matching equals.now (visible_row time (chain_on side self.now)) }
    {
        let row = self.at(time, side)?;
        if matches(equals, row) {
            Some(row)
        } else {
            None
        }
    }

    /// The chain that a side shows.
    fn chain(&self, side: Side) -> &VersionChain
        ensures { result.now ≡ chain_on side self.now }
    {
        match side {
            Side::Current => &self.current,
            Side::Next => self.next_chain(),
        }
    }

    fn next_chain(&self) -> &VersionChain
        ensures { result.now ≡ chain_on Side.Next self.now }
    {
        match &self.next {
            Some(next) => next.chain(),
            None => &self.current,
        }
    }

    /// Writes the row, or none, at the time on that side: on the current one in the chain that both
    /// sides share where the row isn't split, on the next one in a chain of its own. Without memory
    /// the lineage may be any.
    pub(crate) fn write(&mut self, write: RowWrite) -> Result<(), AllocError>
        ensures { OnOk result
            (self.new ≡ with_write_on write.side write.row write.time self.old) }
    {
        match write.side {
            Side::Current => self.current.write(write.row, write.time),
            Side::Next => self.write_next(write.row, write.time),
        }
    }

    fn write_next(&mut self, row: Option<Row>, time: u64) -> Result<(), AllocError>
        ensures { OnOk result (self.new ≡ with_write_on Side.Next row time self.old) }
    {
        if let Some(next) = &mut self.next {
            return next.write(row, time);
        }
        let mut next = self.current.share()?;
        next.write(row, time)?;
        self.next = Some(NextChain::new(self.current.allocator(), next)?);
        Ok(())
    }

    /// The row gets a next side of its own, rolled back to before the time. Without memory the
    /// lineage may be any.
    pub(crate) fn split_back(&mut self, time: u64) -> Result<(), AllocError>
        ensures { OnOk result (self.new ≡ split_back time self.old) }
    {
        let mut next = self.next_chain().share()?;
        next.drop_writes_from(time)?;
        self.next = Some(NextChain::new(self.current.allocator(), next)?);
        Ok(())
    }

    /// Both sides share the chain that this one shows. Without memory the lineage may be any.
    pub(crate) fn unsplit(&mut self, side: Side) -> Result<(), AllocError>
        ensures { OnOk result (self.new ≡ unsplit side self.old) }
    {
        match side {
            Side::Current => {}
            Side::Next => self.current = self.next_chain().share()?,
        }
        self.next = None;
        Ok(())
    }
}

impl Kept for Lineage {
    #[inline(always)]
    fn kept(&self) -> Result<Self, AllocError> {
        let current = self.current.share()?;
        let next = match &self.next {
            Some(next) => Some(next.share()?),
            None => None,
        };
        Ok(Lineage { current, next })
    }
}
