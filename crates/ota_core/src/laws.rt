//! What holds of each legal history.

ghost use Rattle.ota_core.specs.Rules.{OpenStandsFirst, OpenStandsOnce, NothingFollowsClose, NoCounterTwice, CountersFollow, EarlierIsRefused, SettledOnceReserved, MomentsNeverFall, CountersHaveAnEnd, RefusalsRanNothing};

use crate::histories::History;

/// A legal history keeps each rule in its own words: no counter stands twice, nothing of a keyset follows its Close, and
/// so on.
pub fn legal_histories(history: &History)
    ensures open_stands_first { OpenStandsFirst history.now.entries }
    ensures open_stands_once { OpenStandsOnce history.now.entries }
    ensures nothing_follows_close { NothingFollowsClose history.now.entries }
    ensures no_counter_twice { NoCounterTwice history.now.entries }
    ensures counters_follow { CountersFollow history.now.entries }
    ensures earlier_is_refused { EarlierIsRefused history.now.entries }
    ensures settled_once_reserved { SettledOnceReserved history.now.entries }
    ensures moments_never_fall { MomentsNeverFall history.now.entries }
    ensures counters_have_an_end { CountersHaveAnEnd history.now.entries }
    ensures refusals_ran_nothing { RefusalsRanNothing history.now.entries }
{
    let _entries = history.entries();
}
