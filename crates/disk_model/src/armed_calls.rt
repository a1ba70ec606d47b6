// Calls of a disk in memory that are to fail, each with the image that stands afterwards.
ghost use Rattle.std.specs.Prelude.{◌≡◌};
ghost use Rattle.disk_model.specs.ArmedCalls.{armed_at};

use crate::Image;

/// A call, by its number from 1, and the image that a stop within it leaves.
#[derive(Clone, Copy)]
pub struct ArmedCall {
    pub call: u64,
    pub image: Image,
}

/// The image of a call, the one that was armed last.
pub(crate) fn image_at(armed: &[ArmedCall], call: u64) -> Option<Image>
    ensures { result ≡ armed_at armed.now call }
{
    armed
        .iter()
        .rev()
        .find(|one| one.call == call)
        .map(|one| one.image)
}
