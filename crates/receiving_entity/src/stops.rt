//! How a packet ends that isn't answered.

ghost use Rattle.std.specs.Prelude.{◌≡◌};
ghost use Rattle.receiving_entity.specs.Stops.{IsOfAddition, card_error_of, stop_by};

use crate::card_errors::CardErr;
use card_store::StoreErr;
use disk_model::DiskFault;

/// How a packet ends that isn't answered.
#[derive(Clone, Copy, Debug, PartialEq, Eq)]
pub enum Stop {
    /// It is dropped before the first device call.
    Dropped(CardErr),
    /// The card is off.
    Cut(CardErr),
}

/// What a card answers where its store doesn't do an addition.
pub fn card_error_of(error: StoreErr) -> CardErr
    requires { IsOfAddition error }
    ensures { result ≡ card_error_of error }
{
    match error {
        StoreErr::Memory => CardErr::Memory,
        StoreErr::DiskFault(DiskFault::Failed) => CardErr::PowerCut,
        StoreErr::DiskFault(DiskFault::Memory) => CardErr::Memory,
        StoreErr::Full { length, need } => CardErr::Full { length, need },
        _ => unreachable!(),
    }
}

/// How a packet ends whose counter isn't stored.
pub fn stop_by(error: StoreErr) -> Stop
    requires { IsOfAddition error }
    ensures { result ≡ stop_by error }
{
    match error {
        StoreErr::DiskFault(_) => Stop::Cut(card_error_of(error)),
        _ => Stop::Dropped(card_error_of(error)),
    }
}
