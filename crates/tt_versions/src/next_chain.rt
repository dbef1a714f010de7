ghost use Rattle.std.specs.Prelude.{◌≡◌, IfOk, OnOk};

use crate::version_chain::VersionChain;
use std::alloc::{AllocError, Global};
use std::marker::Model;
use std::sync::Arc;
use tt_values::Row;

/// The chain of the next side of a split row. Contracts see the chain.
#[derive(Debug, Drop)]
pub(crate) struct NextChain {
    chain: Arc<VersionChain>,
}

impl Model for NextChain {
    ghost use Rattle.std.specs.Prelude.{List};
    ghost use Rattle.tt_versions.specs.declared.version.Version.{Version};

    ghost Value = { List Version };

    ghost view = { λ n. n.chain.value };
}

impl NextChain {
    ghost use Rattle.tt_versions.specs.Versions.{with_write};

    pub(crate) fn new(alloc: Global, chain: VersionChain) -> Result<NextChain, AllocError>
        ensures { IfOk result (λ n. n ≡ chain) }
    {
        let chain = Arc::new(alloc, chain)?;
        Ok(NextChain { chain })
    }

    pub(crate) fn chain(&self) -> &VersionChain
        ensures { result.now ≡ self.now }
    {
        &self.chain
    }

    /// Writes that row, or none, from the time on. Without memory the chain may be any.
    pub(crate) fn write(&mut self, row: Option<Row>, time: u64) -> Result<(), AllocError>
        ensures { OnOk result (self.new ≡ with_write row time self.old) }
    {
        Arc::make_mut(&mut self.chain)?.write(row, time)
    }

    /// Another owner of the same chain.
    #[inline(always)]
    pub(crate) fn share(&self) -> Result<NextChain, AllocError>
        ensures { IfOk result (λ n. n ≡ self.now) }
    {
        let chain = Arc::try_clone(&self.chain)?;
        Ok(NextChain { chain })
    }
}
