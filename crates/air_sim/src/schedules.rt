ghost use Rattle.std.specs.Prelude.{◌≡◌, ◌<◌, Some, length, slice_get};
ghost use Rattle.air_sim.specs.Acts.{acts_of};

use disk_model::Image;

/// A power cut of a card: the device call, from 1, that fails from now on, and the image of the card's disk that stands
/// afterwards.
#[derive(Clone, Copy, Debug, PartialEq, Eq)]
pub struct Cut {
    pub call: u32,
    pub image: Image,
}

/// An act of a listed schedule. Positions count from 0.
#[derive(Clone, Copy, Debug, PartialEq, Eq)]
pub enum Act {
    /// The piece at this position of those that were sent is handed to its card; with a cut, its power is cut at that call.
    Deliver { sent: u64, cut: Option<Cut> },
    /// The message at this position of those that the cards made is given.
    Give { made: u64 },
    /// The poll finds no message.
    Pass,
}

/// What the port of a simulated site does in its polls.
#[derive(Debug, Drop)]
pub enum Schedule {
    /// The oldest message that wasn't given yet is given. Where there is none, the pieces that were sent are handed over in
    /// order until a card answers.
    Orderly,
    /// A poll carries out acts up to the next that gives a message or none.
    Listed(Vec<Act>),
}

impl Schedule {
    /// How many acts are listed.
    pub(crate) fn len(&self) -> usize
        ensures { result ≡ length (acts_of self.now) }
    {
        match self {
            Schedule::Orderly => 0,
            Schedule::Listed(acts) => acts.len(),
        }
    }

    /// The act at this position.
    pub(crate) fn act(&self, index: usize) -> Act
        requires there { index < length (acts_of self.now) }
        ensures { slice_get (acts_of self.now) index ≡ Some result }
    {
        match self {
            Schedule::Orderly => Act::Pass,
            Schedule::Listed(acts) => acts[index],
        }
    }
}
