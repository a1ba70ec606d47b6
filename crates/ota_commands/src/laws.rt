//! Where a caller begins, and that a script has one response, as laws.

ghost use Rattle.std.specs.Prelude.{◌≡◌, List, ℕ, ◌<◌, length};
ghost use Rattle.lane_session.specs.Sound.{AreSound};
ghost use Rattle.ota_commands.specs.BlankLaws.{IsBlank, AreBlank};
ghost use Rattle.ota_commands.specs.DryRuns.{Responds};
ghost use Rattle.ota_commands.specs.declared.trials.Trial.{Trial};

use disk_model::DiskCalls;

/// Sites on which no entry was ever added are sound: on each no journal is made yet, as on an empty disk, or a newly made
/// one stands.
pub fn blank_sites_are_sound<T: DiskCalls>(_sites: &[T])
    ensures sound { AreBlank T.told _sites.now → AreSound T.told _sites.now }
    ensures short { (lane lanes : ℕ) (octets : List ℕ) → length octets < 11 → IsBlank lane lanes octets }
{}

/// A new card has one response to a script.
pub fn one_response()
    ensures { (trial : Trial) (response other : List ℕ) → Responds trial response → Responds trial other → response ≡ other }
{}
