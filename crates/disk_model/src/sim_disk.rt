// Disks whose calls can be made to fail as a stop would.
ghost use Rattle.std.specs.Prelude.{◌≡◌};
ghost use Rattle.disk_model.specs.Disk.{Tells, DiskRun, image_now};

use crate::{DiskCalls, Image};

/// A disk that can be stopped within a call, for simulations. `SimDisk` is for those that threads share.
pub trait SimCalls: DiskCalls {
    /// Makes the `call`-th call from now, counted from 1, fail, and this image of the disk stand afterwards.
    /// A call that was armed earlier stays armed; of one call the image armed last stands.
    /// Nothing else changes. A disk that isn't simulated does nothing.
    fn arm(&mut self, call: u32, image: Image)
        ensures content { Tells Self.told self.old → Self.told.seen self.new ≡ Self.told.seen self.old }
        ensures moments { Tells Self.told self.old → DiskRun Self.told self.old self.new (image_now Self.told self.old) }
        ensures clock { Tells Self.told self.old → Self.told.clock self.new ≡ Self.told.clock self.old }
        ensures tells { Self.told.tells self.new ≡ Self.told.tells self.old }
        ensures counts { Self.counts self.new ≡ Self.counts self.old };
}

/// A simulated disk that threads may share.
pub trait SimDisk: SimCalls + Send + Sync {}

impl<D: SimCalls + Send + Sync> SimDisk for D {}
