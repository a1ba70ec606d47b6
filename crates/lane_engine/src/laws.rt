//! What holds of sites whose cards act by events of the pure machine.

ghost use Rattle.std.specs.Prelude.{ℕ, []};
ghost use Rattle.site_model.specs.BareTold.{site_told};
ghost use Rattle.lane_engine.specs.Course.{CardsActSince};

use disk_model::DiskCalls;
use site_model::BareSite;

/// On a site without cards nothing but pieces leaves: its cards act by events of the pure machine since each moment, as the
/// calls of a lane ask it of a site. Nothing runs: a caller's proof has the law from here.
pub fn bare_cards_act<D: DiskCalls>(_site: &BareSite<D>)
    ensures { (lane lanes from : ℕ) → CardsActSince (site_told D.told) (λ port. port) (λ _ _. []) lane lanes from _site.now }
{}
