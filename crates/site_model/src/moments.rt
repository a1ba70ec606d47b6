//! The moments of a bare site.

ghost use Rattle.std.specs.Prelude.{◌≡◌, ◌+◌, ◌≤◌, [], ◌∷◌, ◌++◌, vec_len, vec_capacity, OnOk};
ghost use Rattle.site_model.specs.Moments.{moments_after};

use crate::Departure;
use disk_model::DiskFault;
use ota_core::{CardId, Octets};
use std::alloc::AllocError;

/// What happened in a moment.
#[derive(Drop)]
pub(crate) enum Moment {
    /// A call of the disk.
    Disk,
    /// A piece was handed to the port.
    Sent(Departure),
    /// The port was asked for a message, and gave this one.
    Gave(Given),
    /// The port was asked for a message, and had none.
    Polled,
}

/// A message of a card.
#[derive(Drop)]
pub(crate) struct Given {
    pub card: CardId,
    pub message: Octets,
}

/// Makes room for one more.
pub(crate) fn reserve(moments: &mut Vec<Moment>) -> Result<(), AllocError>
    ensures items { moments.new.items ≡ moments.old.items }
    ensures room { OnOk result (vec_len moments.new + 1 ≤ vec_capacity moments.new) }
{
    moments.reserve(1)
}

/// Adds a moment, for which there is room.
pub(crate) fn add(moments: &mut Vec<Moment>, moment: Moment)
    requires { vec_len moments.old + 1 ≤ vec_capacity moments.old }
    ensures { moments.new.items ≡ moments.old.items ++ moment ∷ [] }
{
    moments.push(moment).unwrap();
}

/// Adds the moment of a disk's call, for which there is room. A call that found no memory is none.
pub(crate) fn add_call<T>(moments: &mut Vec<Moment>, outcome: &Result<T, DiskFault>)
    requires { vec_len moments.old + 1 ≤ vec_capacity moments.old }
    ensures { moments.new.items ≡ moments_after outcome.now moments.old.items }
{
    match outcome {
        Err(DiskFault::Memory) => {}
        _ => add(moments, Moment::Disk),
    }
}
