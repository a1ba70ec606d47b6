//! How the journals of all lanes are made.

ghost use Rattle.std.specs.Prelude.{◌≡◌, ◌<◌, ◌^◌, IfErr, OnOk, length};
ghost use Rattle.lane_session.specs.Formatting.{AreFormattedBelow, IsFormattingErr};

use crate::opening::OpeningErr;
use counter_journal::format;
use disk_model::DiskCalls;

/// Makes the journals of all lanes, one on each site, in order, up to the first that is refused. A journal of its lane
/// that stands is left as it is.
pub fn format_lanes<T: DiskCalls>(sites: &mut [T]) -> Result<(), OpeningErr>
    requires few { length sites.old < 2 ^ 16 }
    ensures formatted { OnOk result (AreFormattedBelow T.told T.counts sites.old sites.new (length sites.old)) }
    ensures refused { IfErr result (IsFormattingErr T.told T.counts sites.old sites.new) }
{
    let count = sites.len();
    for number in 0..count {
        if let Err(error) = format(&mut sites[number], number as u16, count as u16) {
            return Err(OpeningErr::Refused(number as u16, error));
        }
    }
    Ok(())
}
