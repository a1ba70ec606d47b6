//! The table of file commands.

ghost use Rattle.std.specs.Prelude.{◌≡◌, ℕ, true, OnErr, IfOk, IfSome, length};
ghost use Rattle.apdu_codec.specs.Apdu.{data_len_of};
ghost use Rattle.apdu_codec.specs.Reply.{answered};
ghost use Rattle.script_engine.specs.FileCommand.{file_command_of, class_of, is_output, data_len, file_command, wants_memory};

use apdu_codec::Reply;
use apdu_codec::instruction::{READ_BINARY, READ_RECORD, SEARCH_RECORD};
use card_files::Files;
use ota_core::Memory;

/// A command on the files of the card.
#[derive(Clone, Copy, Debug, PartialEq, Eq)]
pub enum FileCommand {
    /// SELECT. ETSI TS 102 221, 11.1.1.
    Select,
    /// READ BINARY. ETSI TS 102 221, 11.1.3.
    ReadBinary,
    /// UPDATE BINARY. ETSI TS 102 221, 11.1.4.
    UpdateBinary,
    /// READ RECORD. ETSI TS 102 221, 11.1.5.
    ReadRecord,
    /// UPDATE RECORD. ETSI TS 102 221, 11.1.6.
    UpdateRecord,
    /// SEARCH RECORD. ETSI TS 102 221, 11.1.7.
    SearchRecord,
    /// INCREASE. ETSI TS 102 221, 11.1.8.
    Increase,
    /// DEACTIVATE FILE. ETSI TS 102 222, 6.10.
    Deactivate,
    /// ACTIVATE FILE. ETSI TS 102 222, 6.11.
    Activate,
    /// CREATE FILE. ETSI TS 102 222, 6.3.
    Create,
    /// DELETE FILE. ETSI TS 102 222, 6.4.
    Delete,
}

impl FileCommand {
    /// The command of an instruction octet.
    pub fn of(ins: u8) -> Option<FileCommand>
        ensures command { result ≡ file_command_of ins }
        ensures len { IfSome result (λ command. (p3 : ℕ) → data_len command p3 ≡ data_len_of ins p3) }
    {
        match ins {
            0xA4 => Some(FileCommand::Select),
            READ_BINARY => Some(FileCommand::ReadBinary),
            0xD6 => Some(FileCommand::UpdateBinary),
            READ_RECORD => Some(FileCommand::ReadRecord),
            0xDC => Some(FileCommand::UpdateRecord),
            SEARCH_RECORD => Some(FileCommand::SearchRecord),
            0x32 => Some(FileCommand::Increase),
            0x04 => Some(FileCommand::Deactivate),
            0x44 => Some(FileCommand::Activate),
            0xE0 => Some(FileCommand::Create),
            0xE4 => Some(FileCommand::Delete),
            _ => None,
        }
    }

    /// The class octet that it has.
    pub fn class(self) -> u8
        ensures { result ≡ class_of self }
    {
        match self {
            FileCommand::Increase => 0x80,
            _ => 0x00,
        }
    }

    /// Whether it gives data that it may give only as the last command of a script.
    pub fn is_output(self) -> bool
        ensures { result ≡ is_output self }
    {
        matches!(
            self,
            FileCommand::ReadBinary | FileCommand::ReadRecord | FileCommand::SearchRecord
        )
    }

    /// Runs the command on the files of a card.
    pub fn run(
        self,
        files: &mut Files,
        p1: u8,
        p2: u8,
        p3: u8,
        octets: &[u8],
    ) -> Result<Reply, Memory>
        requires { length octets.now ≡ data_len self p3 }
        ensures answer { IfOk result (λ reply. answered files.new reply ≡ file_command self files.old p1 p2 p3 octets.now) }
        ensures err { OnErr result (files.new ≡ files.old) }
        ensures memory { OnErr result (wants_memory self ≡ true) }
    {
        match self {
            FileCommand::Select => files.select(p1, p2, p3, octets),
            FileCommand::ReadBinary => files.read_binary(p1, p2, p3, octets),
            FileCommand::UpdateBinary => files.update_binary(p1, p2, p3, octets),
            FileCommand::ReadRecord => files.read_record(p1, p2, p3, octets),
            FileCommand::UpdateRecord => files.update_record(p1, p2, p3, octets),
            FileCommand::SearchRecord => files.search_record(p1, p2, p3, octets),
            FileCommand::Increase => files.increase(p1, p2, p3, octets),
            FileCommand::Deactivate => files.deactivate(p1, p2, p3, octets),
            FileCommand::Activate => files.activate(p1, p2, p3, octets),
            FileCommand::Create => files.create(p1, p2, p3, octets),
            FileCommand::Delete => files.delete(p1, p2, p3, octets),
        }
    }
}
