//! How a lane is opened.

ghost use Rattle.std.specs.Prelude.{◌≡◌, ◌<◌, IfOk, IfErr};
ghost use Rattle.disk_model.specs.Disk.{Tells, DiskRun};
ghost use Rattle.gate_log.specs.Answers.{LogCause, IsNotFull};
ghost use Rattle.counter_journal.specs.Journal.{journal_head};
ghost use Rattle.counter_journal.specs.JournalOpening.{IsBeforeOrOpened, IsOpenedTo, IsLeftRefused};
ghost use Rattle.counter_journal.specs.JournalReading.{OpeningAnswer};
ghost use Rattle.lane_engine.specs.Kept.{KeptSince};
ghost use Rattle.lane_engine.specs.Opened.{site_in, journal_in, IsNew, opening_of};

use crate::lanes::Lane;
use crate::workspaces::Workspace;
use arrayvec::ArrayVec;
use counter_journal::Journal;
use gate_log::LogErr;
use site_model::SiteCalls;
use sms_segments::Assembler;
use std::alloc::Global;
use std::marker::Model;
use std::snapshot::Snapshot;

/// The information element of a response packet (3GPP TS 31.115, 4.4).
const RESPONSE: u8 = 0x71;

/// How a lane was opened, as contracts see it: its number among so many, the history then, the clock of its site before and
/// behind it, and the site's counts before. It has no octets.
#[derive(Drop)]
pub struct Opened<T: SiteCalls> {
    /// The site before the opening.
    pub(crate) before: Snapshot<T>,
    /// The site behind it.
    pub(crate) behind: Snapshot<T>,
    /// The journal as it was opened.
    pub(crate) journal: Snapshot<Journal>,
}

impl<T: SiteCalls> Model for Opened<T> {
    ghost use Rattle.lane_engine.specs.Opening.{Opening};

    ghost Value = { Opening };

    ghost view = { λ o. record { lane = o.journal.value.lane; lanes = o.journal.value.lanes; entries = o.journal.value.entries; clock = T.told.clock o.before.value; ready = T.told.clock o.behind.value; counts = T.counts o.before.value } };
}

impl<T: SiteCalls> Lane<T> {
    /// Opens the journal of a site as that of this lane, of so many lanes. A refusal gives the site back. What stands
    /// then is what `Journal::open` leaves; want of memory of the lane itself comes before the first call of the site.
    pub fn open(alloc: Global, site: T, lane: u16, lanes: u16) -> Result<Lane<T>, (T, LogErr)>
        requires { lane < lanes }
        ensures answer { Tells T.told site → OpeningAnswer lane lanes (T.told.seen site) (journal_in result) }
        ensures new { IfOk result (IsNew lane lanes) }
        ensures opened { IfOk result (λ lane. lane.opened ≡ opening_of lane (T.told.clock site) (T.told.clock lane.site) (T.counts site)) }
        ensures content { Tells T.told site → IfOk result (λ opened. IsOpenedTo (T.told.seen site) (T.told.seen opened.site) opened.journal) }
        ensures refused { Tells T.told site → IfErr result (λ error. IsLeftRefused (journal_head lane lanes) (T.told.seen site) (T.told.seen error.0) error.1) }
        ensures moments { Tells T.told site → DiskRun T.told site (site_in result) (IsBeforeOrOpened T.told site lane lanes) }
        ensures tells { T.told.tells (site_in result) ≡ T.told.tells site }
        ensures cause { LogCause (T.counts site) (T.counts (site_in result)) (journal_in result) }
        ensures not_full { IfErr result (λ error. IsNotFull error.1) }
        ensures kept { IfOk result (λ opened. KeptSince T.told T.counts T.port T.lines (opening_of opened (T.told.clock site) (T.told.clock opened.site) (T.counts site)) opened) }
    {
        let mut site = site;
        let before = Snapshot::of(&site);
        let workspace = match Workspace::new(alloc) {
            Ok(workspace) => workspace,
            Err(_) => return Err((site, LogErr::Memory)),
        };
        match Journal::open(alloc, &mut site, lane, lanes) {
            Ok(journal) => Ok(Lane {
                alloc,
                opened: Opened {
                    before,
                    behind: Snapshot::of(&site),
                    journal: Snapshot::of(&journal),
                },
                site,
                journal,
                is_stale: false,
                assembler: Assembler::new(alloc, RESPONSE),
                workspace,
                moment: 0,
                name: ArrayVec::new(),
                end: None,
                lost: Snapshot::of(&Vec::new(alloc)),
            }),
            Err(error) => Err((site, error)),
        }
    }
}
