//! The name of a service with a live record, and tokens, which prove what their holders have seen
//! of the record, and of its chain.

ghost use Rattle.std.specs.Prelude.{◌≡◌, length};
ghost use Rattle.fdb_history.specs.Chain.{IsChain};
ghost use Rattle.fdb_live.specs.Seen.{IsLog};

use crate::passes::Pass;
use fdb_history::Service;
use std::marker::{Brand, Model, PhantomData};

/// The name of a service that has a live record. It stands for the service, as each [`Service`]
/// does, and for the piece of memory in which this record is shared.
pub trait Live: Service {
    ghost use Rattle.std.specs.Prelude.{Bool};
    ghost use Rattle.atomic_table.specs.Seated.{TableId};

    // The table of the cell.
    ghost table: { TableId };

    // Whether the service has a chain of commit versions, of which each reported version is one.
    ghost chained: { Bool };
}

/// The name that a call may pick the cell of.
impl Live for Brand {
    ghost use Rattle.std.specs.Prelude.{false};
    ghost use Rattle.fdb_live.specs.private.Token.{no_table};

    ghost table = { no_table };

    ghost chained = { false };
}

/// A token of what its holder has seen of the live record of the service `S`: a list of reports
/// that have changed the record, and, where the service has a chain of commit versions, a list of
/// answers that drew versions, each from the first on. Whoever has the token proves by it that
/// these reports and answers took place, one after another. At run time it is a position and a
/// number.
///
/// Contracts see it as the number of the reporter whose token it is, if it is a reporter's, and
/// these two lists. The list of answers is empty where the service has no chain. A token is not
/// cloned: [`LiveRecord::split`](crate::LiveRecord::split) makes another that has seen the same. It
/// may be dropped.
#[derive(Drop)]
pub struct Seen<S: Live> {
    pub(crate) number: Option<u32>,
    pub(crate) position: u64,
    pub(crate) pass: Pass,
    pub(crate) of: PhantomData<S>,
}

impl<S: Live> Model for Seen<S> {
    ghost use Rattle.std.specs.Prelude.{◌≡◌, length};
    ghost use Rattle.crossbeam_utils.specs.Seq.{cell_view};
    ghost use Rattle.fdb_live.specs.Seen.{Sight};
    ghost use Rattle.fdb_live.specs.private.Token.{IsHolder, IsMember};

    ghost Value = { Sight };

    ghost view = { λ s. record {
      reporter = s.number;
      changes = (cell_view s.pass).seen;
      answers = (cell_view s.pass).chain.seen;
    } };

    ghost invariant = { λ s. (s.pass.table_id ≡ S.table)
        × (s.position ≡ length (cell_view s.pass).seen)
        × IsHolder S.start S.reporters s.number (cell_view s.pass)
        × IsMember S.chained S.epoch_end S.recovery S.reporters s.number (cell_view s.pass) };
}

impl<S: Live> Seen<S> {
    /// The number of changes that the token's holder has seen. The clauses say besides, of any
    /// token, that each of these changes did change the record, one after another.
    #[inline]
    pub fn position(&self) -> u64
        ensures position { result ≡ length self.now.changes }
        ensures log { IsLog S.start S.reporters self.now.changes }
        ensures chain { IsChain S.epoch_end S.recovery self.now.answers }
    {
        self.position
    }

    /// The number of the reporter whose token it is.
    #[inline]
    pub fn reporter(&self) -> Option<u32>
        ensures { result ≡ self.now.reporter }
    {
        self.number
    }
}
