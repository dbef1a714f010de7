//! What a store publishes to readers, and the names that tie it to its workers.
ghost use Rattle.std.specs.Prelude.{◌≡◌, length, IfOk, ◌≢◌, ◌<◌, IfErr};
ghost use Rattle.tt_store.specs.Published.{Published, IsOf, RuleIsMembership};

use crate::errors::OpenError;
use crate::front::Front;
use crossbeam_utils::rule::{Outcome, Protocol};
use left_right::Absorb;
use left_right::reader::Reader;
use left_right::writer::Writer;
use std::alloc::{AllocError, Global};
use std::marker::{Brand, Model, PhantomData};
use std::sync::Wait;
use std::sync::ledger::Ledger;
use tt_db::Db;
use tt_values::Shared;

/// A state of the database, with its history as a beginning of the one history.
pub struct Snapshot {
    db: Shared<Db>,
    front: Front,
}

// Written out, so that each place that lets one go calls one function.
impl Drop for Snapshot {
    fn drop(self) {
        let Snapshot { db: _, front: _ } = self;
    }
}

impl Model for Snapshot {
    ghost use Rattle.std.specs.Prelude.{◌≡◌};
    ghost use Rattle.tt_store.specs.Published.{Published};

    ghost Value = { Published };

    ghost view = { λ s. record { book = s.front.book; db = s.db } };

    ghost invariant = { λ s. s.front.entries ≡ s.db.history };
}

impl Snapshot {
    pub(crate) fn new(db: Shared<Db>, front: Front) -> Snapshot
        requires { front.entries ≡ db.history }
        ensures { result ≡ record { book = front.book; db = db } }
    {
        Snapshot { db, front }
    }

    pub(crate) fn db(&self) -> &Db
        ensures { result.now ≡ self.now.db }
    {
        self.db.get()
    }

    /// The database, without the history around it.
    pub(crate) fn into_db(self) -> Shared<Db>
        ensures { result ≡ self.db }
    {
        let Self { db, front: _ } = self;
        db
    }

    /// How many entries its history has.
    pub(crate) fn len(&self) -> u64
        ensures { result ≡ length self.now.db.history }
    {
        self.front.len()
    }

    /// Its history, as a beginning of the one history.
    pub(crate) fn front(&self) -> &Front
        ensures book { result.now.book ≡ self.now.book }
        ensures entries { result.now.entries ≡ self.now.db.history }
    {
        &self.front
    }

    /// Another owner of the same database.
    pub(crate) fn share(&self) -> Result<Snapshot, AllocError>
        ensures { IfOk result (λ s. s ≡ self.now) }
    {
        let db = self.db.clone()?;
        let front = self.front.share();
        Ok(Snapshot { db, front })
    }
}

/// Readers see the snapshot that was appended last.
impl Absorb<Snapshot> for Snapshot {
    type State = Snapshot;

    ghost state = { λ s. s };

    ghost applied = { λ s next. next };

    fn absorb_first(&mut self, operation: &Snapshot, _other: &Snapshot) -> Result<(), AllocError> {
        *self = operation.share()?;
        Ok(())
    }

    fn absorb_second(&mut self, operation: Snapshot, _other: &Snapshot) -> Result<(), Snapshot> {
        *self = operation;
        Ok(())
    }
}

/// Which store it is: the book of its history, its tables and its limits. The call that opens a
/// store picks them.
pub trait Naming: Ledger + Protocol<Snapshot, ()> {
    ghost use Rattle.logbook.specs.Pages.{Book};
    ghost use Rattle.tt_values.specs.Tables.{Tables};
    ghost use Rattle.tt_db.specs.declared.limits.Limits.{Limits};

    ghost book: { Book };

    ghost tables: { Tables };

    ghost limits: { Limits };
}

impl Protocol<Snapshot, ()> for Brand {
    ghost holds = { λ snapshot known. Unit {0} };

    ghost first = { tt };
}

impl Naming for Brand {
    ghost use Rattle.std.specs.Prelude.{[]};

    ghost book = { record { number = 0; log_name = 0; cells_name = 0 } };

    ghost tables = { [] };

    ghost limits = { record { slots = 0; events = 0; edits = 0; keep = 0 } };
}

/// What readers know of a snapshot: that it is of the store.
pub(crate) struct Sees<L>(PhantomData<L>);

impl<L: Naming> Outcome<Snapshot, ()> for Sees<L> {
    ghost use Rattle.tt_store.specs.Published.{IsOf};

    ghost then = { λ before x y after. IsOf L.book L.tables L.limits y };
}

/// Publishes snapshots to readers, with the handle by which its end waits for them.
pub(crate) struct Publisher<L: Naming, R: Wait + Drop> {
    writer: Writer<Snapshot, Snapshot, (), L>,
    rt: R,
}

impl<L: Naming, R: Wait + Drop> Drop for Publisher<L, R> {
    fn drop(self) {
        let Self { writer, rt } = self;
        drop(writer.take(&rt));
    }
}

impl<L: Naming, R: Wait + Drop> Publisher<L, R> {
    /// A publisher to this number of readers. It publishes its first snapshot twice, so that there
    /// is room for those that it publishes later.
    pub(crate) fn open(
        rt: R,
        alloc: Global,
        snapshot: &Snapshot,
        readers: u32,
    ) -> Result<Publisher<L, R>, OpenError>
        requires tied { RuleIsMembership L.holds L.book L.tables L.limits }
        requires of { IsOf L.book L.tables L.limits snapshot.now }
        requires some { 0 < readers }
        ensures error { IfErr result (λ e. e ≢ OpenError.Workers) }
    {
        let Ok(first) = snapshot.share() else {
            return Err(OpenError::Memory);
        };
        let Ok(second) = snapshot.share() else {
            return Err(OpenError::Memory);
        };
        let Ok(again) = snapshot.share() else {
            return Err(OpenError::Memory);
        };
        match Writer::new(alloc, first, second, readers as usize) {
            Ok(writer) => with_room(Publisher { writer, rt }.publish(again)),
            Err(AllocError) => Err(OpenError::Memory),
        }
    }

    /// Another reader. It fails where each place for one is taken.
    pub(crate) fn reader(&self) -> Result<Reader<Snapshot, (), L>, AllocError>
        requires { RuleIsMembership L.holds L.book L.tables L.limits }
    {
        self.writer.factory().reader()
    }

    /// Publishes a snapshot, and says whether there was memory for it. Without memory readers go on
    /// to see the one before it, until the next is published.
    pub(crate) fn publish(self, snapshot: Snapshot) -> (Publisher<L, R>, bool)
        requires tied { RuleIsMembership L.holds L.book L.tables L.limits }
        requires of { IsOf L.book L.tables L.limits snapshot }
    {
        let Self { mut writer, rt } = self;
        match writer.append(snapshot) {
            Ok(()) => {
                let (writer, published) = writer.publish_as::<Sees<L>, R>(&rt);
                (Publisher { writer, rt }, published.is_ok())
            }
            Err(_) => (Publisher { writer, rt }, false),
        }
    }
}

/// The publisher, where it has published.
fn with_room<L: Naming, R: Wait + Drop>(
    published: (Publisher<L, R>, bool),
) -> Result<Publisher<L, R>, OpenError>
    ensures error { IfErr result (λ e. e ≢ OpenError.Workers) }
{
    let (publisher, is_published) = published;
    if is_published {
        Ok(publisher)
    } else {
        Err(OpenError::Memory)
    }
}
