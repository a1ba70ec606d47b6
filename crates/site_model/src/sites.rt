// A site: its calls, and what it tells of them.
ghost use Rattle.std.specs.Prelude.{◌≡◌, ◌≤◌, ◌+◌, ℕ, [], ◌∷◌, ◌++◌, List, length, IfOk, OnOk, IfNone, IfSome};
ghost use Rattle.disk_model.specs.Disk.{Tells};
ghost use Rattle.world_core.specs.declared.lines.Line.{Line};
ghost use Rattle.site_model.specs.Port.{PortState, IsSending, IsPolling};
ghost use Rattle.site_model.specs.Cards.{HasChoice, Keeps, port_now};
ghost use Rattle.site_model.specs.Runs.{PortRun};
ghost use Rattle.site_model.specs.Causes.{HasSiteCause, CountsEmpty, empty_polls};
ghost use Rattle.site_model.specs.Pieces.{pieces_under};

use crate::SiteFault;
use arrayvec::ArrayVec;
use disk_model::DiskCalls;
use ota_core::{CardId, Reference};

/// The calls of a site: those of its disk, and those of the port to its cards. What is generic over sites takes this
/// bound; `Site` is for those that threads share.
///
/// One clock covers both. In a call of the disk what stands beside it stays, and in a call of the port the images of the
/// disk stay. A card that acts while the gateway writes counts as acting in the next call of the port.
///
/// What is counted beside the disk is how often a poll found no message.
pub trait SiteCalls: DiskCalls {
    /// What stands beside the disk is the port.
    ghost port: { Self.Beside → PortState };

    /// What may be chosen is, for each number of a card, lines that a power cut may leave.
    ghost lines: { Self.Choice → ℕ → List Line };

    /// Hands a piece of a packet to the port: its place, from 1, among the pieces that the packet leaves in under this
    /// reference (3GPP TS 23.040, 9.2.3.24.1 and 9.2.3.24.8).
    fn send(
        &mut self,
        card: CardId,
        packet: &[u8],
        reference: Reference,
        place: u8,
    ) -> Result<(), SiteFault>
        requires first { 1 ≤ place }
        requires last { place ≤ pieces_under reference (length packet.now) }
        ensures sent { Tells Self.told self.old → OnOk result ((port_now Self.told port lines self.new).sent ≡ (port_now Self.told port lines self.old).sent ++ record { card = card; packet = packet.now; reference = reference; place = place } ∷ []) }
        ensures moments { Tells Self.told self.old → PortRun Self.told self.old self.new (λ beside. IsSending (port_now Self.told port lines self.old) (port beside) (record { card = card; packet = packet.now; reference = reference; place = place })) }
        ensures keeps { Tells Self.told self.old → Keeps Self.told port lines self.old self.new }
        ensures content { Tells Self.told self.old → Self.told.seen self.new ≡ Self.told.seen self.old }
        ensures tells { Self.told.tells self.new ≡ Self.told.tells self.old }
        ensures empty_polls { empty_polls (Self.counts self.new) ≡ empty_polls (Self.counts self.old) }
        ensures cause { HasSiteCause (Self.counts self.old) (Self.counts self.new) result };

    /// The next message of a card, or None where the port has none now.
    fn poll(&mut self) -> Result<Option<(CardId, ArrayVec<u8, 140>)>, SiteFault>
        ensures given { Tells Self.told self.old → IfOk result (λ message. IfSome message (λ m. (port_now Self.told port lines self.new).given ≡ (port_now Self.told port lines self.old).given ++ (m.0, m.1.items) ∷ [])) }
        ensures nothing { Tells Self.told self.old → IfOk result (λ message. IfNone message ((port_now Self.told port lines self.new).given ≡ (port_now Self.told port lines self.old).given)) }
        ensures polled { Tells Self.told self.old → OnOk result ((port_now Self.told port lines self.new).polls ≡ (port_now Self.told port lines self.old).polls + 1) }
        ensures moments { Tells Self.told self.old → PortRun Self.told self.old self.new (λ beside. IsPolling (port_now Self.told port lines self.old) (port beside)) }
        ensures keeps { Tells Self.told self.old → Keeps Self.told port lines self.old self.new }
        ensures content { Tells Self.told self.old → Self.told.seen self.new ≡ Self.told.seen self.old }
        ensures tells { Self.told.tells self.new ≡ Self.told.tells self.old }
        ensures empty { CountsEmpty (Self.counts self.old) (Self.counts self.new) result }
        ensures cause { HasSiteCause (Self.counts self.old) (Self.counts self.new) result };

    /// At each moment something may be chosen: for each card there are lines that a power cut may leave.
    ghost has_choice: { (site : Self) → Tells Self.DiskCalls.told site → (moment : ℕ) → moment ≤ Self.DiskCalls.told.clock site → HasChoice Self.DiskCalls.told port lines site moment };
}

/// A site that threads may share.
pub trait Site: SiteCalls + Send + Sync {}

impl<S: SiteCalls + Send + Sync> Site for S {}
