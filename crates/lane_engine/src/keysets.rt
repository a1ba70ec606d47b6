//! Keysets that a lane opens and closes.

ghost use Rattle.std.specs.Prelude.{◌≡◌, ◌≤◌, ◌%◌, [], ◌∷◌, ◌++◌, OnOk, ℕ, None, All, length, map, filter, not, reverse, IfOk};
ghost use Rattle.std.specs.List.{list_any};
ghost use Rattle.disk_model.specs.Disk.{Tells};
ghost use Rattle.ota_core.specs.Entry.{is_open_of};
ghost use Rattle.ota_core.specs.Questions.{state_of};
ghost use Rattle.lane_engine.specs.Adding.{moment_for, AddingAnswer, IsAddition, IsAddingRun, LaneCause};
ghost use Rattle.lane_engine.specs.Course.{AddingCourse};
ghost use Rattle.lane_engine.specs.Kept.{KeptSince, IsLater};
ghost use Rattle.lane_engine.specs.Opening.{Opening};
ghost use Rattle.lane_engine.specs.Reserving.{KeysetsDiffer, opens_of, close_of, state_refusal};

use crate::answers::LaneErr;
use crate::lanes::Lane;
use ota_core::{Entry, KeysetFacts, KeysetId, KeysetState, Memory};
use site_model::SiteCalls;

impl<T: SiteCalls> Lane<T> {
    /// Adds an Open for each keyset that the history lacks, in order, all or none. Where it lacks none, no device call is
    /// made. There are 0 to 16, all different and of cards of this lane.
    pub fn open_keysets(
        &mut self,
        by: u32,
        keysets: &[(KeysetId, KeysetFacts)],
    ) -> Result<(), LaneErr>
        requires few { length keysets.now ≤ 16 }
        requires differ { KeysetsDiffer keysets.now }
        requires of_lane { All (λ keyset. keyset.0.card.0 % self.old.journal.lanes ≡ self.old.journal.lane) keysets.now }
        ensures answer { AddingAnswer self.old None (opens_of by (moment_for self.old) (reverse self.old.journal.entries) keysets.now) result }
        ensures added { IsAddition self.old self.new (opens_of by (moment_for self.old) (reverse self.old.journal.entries) keysets.now) result }
        ensures run { Tells T.told self.old.site → IsAddingRun T.told T.port T.lines self.old self.new (opens_of by (moment_for self.old) (reverse self.old.journal.entries) keysets.now) result }
        ensures course { Tells T.told self.old.site → AddingCourse T.told T.port T.lines self.old self.new (opens_of by (moment_for self.old) (reverse self.old.journal.entries) keysets.now) result }
        ensures idle { opens_of by (moment_for self.old) (reverse self.old.journal.entries) keysets.now ≡ [] → self.new ≡ self.old }
        ensures cause { LaneCause (T.counts self.old.site) (T.counts self.new.site) result }
        ensures later { IsLater T.told T.counts T.port T.lines self.old self.new }
        ensures kept { (opening : Opening) → KeptSince T.told T.counts T.port T.lines opening self.old → KeptSince T.told T.counts T.port T.lines opening self.new }
    {
        if self.is_stale {
            return Err(LaneErr::Stale);
        }
        let opens = self.lacking(by, keysets)?;
        if opens.is_empty() {
            return Ok(());
        }
        self.append(opens)
    }

    /// Closes the keyset: nothing of it is reserved, sent again or settled from now on.
    pub fn close_keyset(&mut self, by: u32, keyset: KeysetId) -> Result<(), LaneErr>
        ensures answer { AddingAnswer self.old (state_refusal (state_of keyset (reverse self.old.journal.entries))) (close_of by (moment_for self.old) keyset) result }
        ensures added { IsAddition self.old self.new (close_of by (moment_for self.old) keyset) result }
        ensures run { Tells T.told self.old.site → IsAddingRun T.told T.port T.lines self.old self.new (close_of by (moment_for self.old) keyset) result }
        ensures course { Tells T.told self.old.site → AddingCourse T.told T.port T.lines self.old self.new (close_of by (moment_for self.old) keyset) result }
        ensures cause { LaneCause (T.counts self.old.site) (T.counts self.new.site) result }
        ensures later { IsLater T.told T.counts T.port T.lines self.old self.new }
        ensures kept { (opening : Opening) → KeptSince T.told T.counts T.port T.lines opening self.old → KeptSince T.told T.counts T.port T.lines opening self.new }
    {
        if self.is_stale {
            return Err(LaneErr::Stale);
        }
        match self.journal.book().keyset_state(keyset) {
            KeysetState::New => return Err(LaneErr::UnknownKeyset),
            KeysetState::Closed => return Err(LaneErr::Closed),
            KeysetState::Open => {}
        }
        let close = self.close_of(by, keyset)?;
        self.append(close)
    }

    /// The Opens of the keysets that the history lacks.
    fn lacking(&self, by: u32, keysets: &[(KeysetId, KeysetFacts)]) -> Result<Vec<Entry>, Memory>
        ensures { IfOk result (λ opens. opens.items ≡ opens_of by (moment_for self.now) (reverse self.now.journal.entries) keysets.now) }
    {
        let mut opens = Vec::with_capacity(self.alloc, keysets.len())?;
        for (keyset, facts) in keysets {
            self.put_open(&mut opens, by, *keyset, *facts)?;
        }
        Ok(opens)
    }

    /// Puts an Open of the keyset behind the others, where the history lacks it.
    fn put_open(
        &self,
        opens: &mut Vec<Entry>,
        by: u32,
        keyset: KeysetId,
        facts: KeysetFacts,
    ) -> Result<(), Memory>
        ensures { OnOk result (opens.new.items ≡ opens.old.items ++ opens_of by (moment_for self.now) (reverse self.now.journal.entries) ((keyset, facts) ∷ [])) }
    {
        if self.lacks(keyset) {
            opens.push(Entry::Open {
                by,
                moment: self.moment_for(),
                keyset,
                facts,
            })?;
        }
        Ok(())
    }

    /// Whether the history has no Open of the keyset.
    fn lacks(&self, keyset: KeysetId) -> bool
        ensures { result ≡ not (list_any (is_open_of keyset) (reverse self.now.journal.entries)) }
    {
        match self.journal.book().keyset_state(keyset) {
            KeysetState::New => true,
            _ => false,
        }
    }

    fn close_of(&self, by: u32, keyset: KeysetId) -> Result<Vec<Entry>, Memory>
        ensures { IfOk result (λ close. close.items ≡ close_of by (moment_for self.now) keyset) }
    {
        let mut close = Vec::with_capacity(self.alloc, 1)?;
        close.push(Entry::Close {
            by,
            moment: self.moment_for(),
            keyset,
        })?;
        Ok(close)
    }

    /// The moment of the entries to come: the lane's, or that of the last entry where this is greater.
    pub(crate) fn moment_for(&self) -> u64
        ensures { result ≡ moment_for self.now }
    {
        self.moment.max(self.journal.book().last_moment())
    }
}
