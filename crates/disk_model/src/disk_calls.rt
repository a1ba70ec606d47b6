// A disk: its calls, and what it tells of them.
ghost use Rattle.std.specs.Prelude.{◌≡◌, ◌≤◌, List, ℕ, length, take, IfOk, OnOk};
ghost use Rattle.disk_model.specs.Counts.{Counts, HasCause};
ghost use Rattle.disk_model.specs.Disk.{
  Meaning,
  Tells,
  image_now,
  DiskRun,
  Ticks,
  Changes,
  Reads,
  overwritten,
  Torn,
  Cut,
  Follows,
  Only,
};

use crate::DiskFault;

/// The calls of a disk. What is generic over disks takes this bound; `Disk` is for those that threads share.
///
/// Until a sync succeeds, a stop may leave any octets in each written range and past the old end, and a file that
/// was cut may have any length between. After it, a stop leaves what a read gives.
pub trait DiskCalls: Drop {
    /// What stands beside the disk, as the port of a site. A disk alone has `()`.
    type Beside;

    /// What may be chosen beside the disk at a moment. A disk alone has `()`.
    type Choice;

    /// What the disk tells.
    ghost told: { Meaning Self Self.Beside Self.Choice };

    /// How often it failed, and how often it found no memory.
    ghost counts: { Self → Counts };

    /// The number of octets.
    fn len(&mut self) -> Result<u64, DiskFault>
        ensures length { Tells told self.old → IfOk result (λ len. len ≡ length (told.seen self.old)) }
        ensures content { Tells told self.old → Changes (told.seen self.old) (told.seen self.new) result (told.seen self.old) }
        ensures moments { Tells told self.old → DiskRun told self.old self.new (image_now told self.old) }
        ensures clock { Tells told self.old → Ticks (told.clock self.old) (told.clock self.new) result }
        ensures tells { told.tells self.new ≡ told.tells self.old }
        ensures cause { HasCause (counts self.old) (counts self.new) result };

    /// Reads the octets from `at` to the end, at most as many as `into` holds, and says how many.
    /// The rest of `into` stays as it was. After a fault `into` may hold anything.
    fn read_at(&mut self, at: u64, into: &mut [u8]) -> Result<usize, DiskFault>
        ensures count { IfOk result (λ count. count ≤ length into.old) }
        ensures octets { Tells told self.old → IfOk result (Reads (told.seen self.old) at into.old into.new) }
        ensures content { Tells told self.old → Changes (told.seen self.old) (told.seen self.new) result (told.seen self.old) }
        ensures moments { Tells told self.old → DiskRun told self.old self.new (image_now told self.old) }
        ensures clock { Tells told self.old → Ticks (told.clock self.old) (told.clock self.new) result }
        ensures tells { told.tells self.new ≡ told.tells self.old }
        ensures cause { HasCause (counts self.old) (counts self.new) result };

    /// Writes over what stands at `at`, and past the end.
    fn write_at(&mut self, at: u64, from: &[u8]) -> Result<(), DiskFault>
        requires { Tells told self.old → at ≤ length (told.seen self.old) }
        ensures content { Tells told self.old → Changes (told.seen self.old) (told.seen self.new) result (overwritten (told.seen self.old) at from.now) }
        ensures moments { Tells told self.old → DiskRun told self.old self.new (Follows (Torn at (length from.now)) (image_now told self.old)) }
        ensures clock { Tells told self.old → Ticks (told.clock self.old) (told.clock self.new) result }
        ensures tells { told.tells self.new ≡ told.tells self.old }
        ensures cause { HasCause (counts self.old) (counts self.new) result };

    /// Cuts the disk to a length.
    fn cut(&mut self, len: u64) -> Result<(), DiskFault>
        requires { Tells told self.old → len ≤ length (told.seen self.old) }
        ensures content { Tells told self.old → Changes (told.seen self.old) (told.seen self.new) result (take len (told.seen self.old)) }
        ensures moments { Tells told self.old → DiskRun told self.old self.new (Follows (Cut len) (image_now told self.old)) }
        ensures clock { Tells told self.old → Ticks (told.clock self.old) (told.clock self.new) result }
        ensures tells { told.tells self.new ≡ told.tells self.old }
        ensures cause { HasCause (counts self.old) (counts self.new) result };

    /// After it, a stop leaves what a read gives.
    fn sync(&mut self) -> Result<(), DiskFault>
        ensures durable { Tells told self.old → OnOk result (Only (told.seen self.old) (image_now told self.new)) }
        ensures content { Tells told self.old → Changes (told.seen self.old) (told.seen self.new) result (told.seen self.old) }
        ensures moments { Tells told self.old → DiskRun told self.old self.new (image_now told self.old) }
        ensures clock { Tells told self.old → Ticks (told.clock self.old) (told.clock self.new) result }
        ensures tells { told.tells self.new ≡ told.tells self.old }
        ensures cause { HasCause (counts self.old) (counts self.new) result };

    /// What a read gives is one of the images that a stop may leave now.
    ghost seen_is_image: { (disk : Self) → Tells told disk → image_now told disk (told.seen disk) };
}

/// A disk that threads may share.
pub trait Disk: DiskCalls + Send + Sync {}

impl<D: DiskCalls + Send + Sync> Disk for D {}
