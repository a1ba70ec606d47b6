//! The table of applet commands.

ghost use Rattle.std.specs.Prelude.{◌≡◌, ℕ, true, OnErr, IfOk, IfSome, length};
ghost use Rattle.apdu_codec.specs.Apdu.{data_len_of};
ghost use Rattle.apdu_codec.specs.Reply.{answered};
ghost use Rattle.script_engine.specs.AppletCommand.{applet_command_of, is_output, applet_command, wants_memory};

use apdu_codec::Reply;
use apdu_codec::instruction::GET_STATUS;
use applet_registry::Registry;
use ota_core::Memory;

/// The class octet of each applet command. GlobalPlatform Card Specification 2.1.1, 9.1.2.
pub const APPLET_CLASS: u8 = 0x80;

/// A command on the load files, the applications and the keysets of the card.
#[derive(Clone, Copy, Debug, PartialEq, Eq)]
pub enum AppletCommand {
    /// INSTALL. GlobalPlatform Card Specification 2.1.1, 9.5.
    Install,
    /// LOAD. GlobalPlatform Card Specification 2.1.1, 9.6.
    Load,
    /// DELETE. GlobalPlatform Card Specification 2.1.1, 9.2.
    DeleteObject,
    /// SET STATUS. GlobalPlatform Card Specification 2.1.1, 9.10.
    SetStatus,
    /// GET STATUS. GlobalPlatform Card Specification 2.1.1, 9.4.
    GetStatus,
    /// PUT KEY. GlobalPlatform Card Specification 2.1.1, 9.8.
    PutKey,
}

impl AppletCommand {
    /// The command of an instruction octet.
    pub fn of(ins: u8) -> Option<AppletCommand>
        ensures command { result ≡ applet_command_of ins }
        ensures len { IfSome result (λ _. (p3 : ℕ) → data_len_of ins p3 ≡ p3) }
    {
        match ins {
            0xE6 => Some(AppletCommand::Install),
            0xE8 => Some(AppletCommand::Load),
            0xE4 => Some(AppletCommand::DeleteObject),
            0xF0 => Some(AppletCommand::SetStatus),
            GET_STATUS => Some(AppletCommand::GetStatus),
            0xD8 => Some(AppletCommand::PutKey),
            _ => None,
        }
    }

    /// Whether it gives data that it may give only as the last command of a script.
    pub fn is_output(self) -> bool
        ensures { result ≡ is_output self }
    {
        matches!(self, AppletCommand::GetStatus)
    }

    /// Runs the command on the registry of a card.
    pub fn run(
        self,
        registry: &mut Registry,
        p1: u8,
        p2: u8,
        p3: u8,
        octets: &[u8],
    ) -> Result<Reply, Memory>
        requires { length octets.now ≡ p3 }
        ensures answer { IfOk result (λ reply. answered registry.new reply ≡ applet_command self registry.old p1 p2 p3 octets.now) }
        ensures err { OnErr result (registry.new ≡ registry.old) }
        ensures memory { OnErr result (wants_memory self ≡ true) }
    {
        match self {
            AppletCommand::Install => registry.install(p1, p2, p3, octets),
            AppletCommand::Load => registry.load(p1, p2, p3, octets),
            AppletCommand::DeleteObject => registry.delete_object(p1, p2, p3, octets),
            AppletCommand::SetStatus => registry.set_status(p1, p2, p3, octets),
            AppletCommand::GetStatus => registry.get_status(p1, p2, p3, octets),
            AppletCommand::PutKey => registry.put_key(p1, p2, p3, octets),
        }
    }
}
