//! Why a command is refused.

ghost use Rattle.std.specs.Prelude.{◌≡◌};
ghost use Rattle.apdu_codec.specs.Refusal.{status_word_of};

/// The status word of a command that was done.
///
/// ETSI TS 102 221, 10.2.1.1.
pub const DONE: u16 = 0x9000;

/// The refusals of this card. Which case gives which one stands with each command.
///
/// ETSI TS 102 221, 10.2.1; GlobalPlatform Card Specification 2.1.1, 9.1.3.
#[derive(Clone, Copy, Debug, PartialEq, Eq)]
pub enum Refusal {
    /// 6700: a wrong length.
    WrongLength,
    /// 6981: the command doesn't suit the kind of the file.
    WrongKind,
    /// 6982: the file may not be managed remotely.
    NotRemote,
    /// 6985: the conditions of use don't hold.
    ConditionsNotMet,
    /// 6986: no EF is selected.
    NoCurrentEf,
    /// 6A80: wrong data.
    WrongData,
    /// 6A82: no such file.
    FileNotFound,
    /// 6A83: no such record.
    RecordNotFound,
    /// 6A84: the card has no room.
    NoRoom,
    /// 6A86: wrong P1 or P2.
    WrongParameters,
    /// 6A88: no such load file or application.
    ReferenceNotFound,
    /// 6B00: an offset outside the file.
    WrongOffset,
    /// 6D00: the instruction isn't known.
    UnknownInstruction,
    /// 6E00: the class isn't that of the instruction.
    UnknownClass,
    /// 9850: the greatest value of a record is reached.
    GreatestReached,
}

impl Refusal {
    /// The status word.
    pub fn status_word(self) -> u16
        ensures { result ≡ status_word_of self }
    {
        match self {
            Refusal::WrongLength => 0x6700,
            Refusal::WrongKind => 0x6981,
            Refusal::NotRemote => 0x6982,
            Refusal::ConditionsNotMet => 0x6985,
            Refusal::NoCurrentEf => 0x6986,
            Refusal::WrongData => 0x6A80,
            Refusal::FileNotFound => 0x6A82,
            Refusal::RecordNotFound => 0x6A83,
            Refusal::NoRoom => 0x6A84,
            Refusal::WrongParameters => 0x6A86,
            Refusal::ReferenceNotFound => 0x6A88,
            Refusal::WrongOffset => 0x6B00,
            Refusal::UnknownInstruction => 0x6D00,
            Refusal::UnknownClass => 0x6E00,
            Refusal::GreatestReached => 0x9850,
        }
    }
}
