//! What a response packet says, and why one isn't opened.

ghost use Rattle.std.specs.Prelude.{◌≡◌};
ghost use Rattle.response_packet.specs.declared.answers.AnswerErr.TheVariants.{Memory};

use ota_core::{Counter, Octets, Tar};
use std::alloc::AllocError;
use std::error::Error;
use std::fmt;

/// What a secured response packet says.
#[derive(Debug, Drop)]
pub struct Answer {
    pub tar: Tar,
    /// A copy of the command's counter.
    pub counter: Counter,
    /// The status code (ETSI TS 102 225, 5.2.2).
    pub status: u8,
    /// The additional data, without padding.
    pub octets: Octets,
}

/// What a secured response packet says, with the place of its data in the octets that it was opened in.
#[derive(Clone, Copy, Debug, PartialEq, Eq)]
pub struct AnswerIn {
    pub tar: Tar,
    /// A copy of the command's counter.
    pub counter: Counter,
    /// The status code (ETSI TS 102 225, 5.2.2).
    pub status: u8,
    /// Where the data begin, from 0.
    pub from: u32,
    /// How many octets of data there are.
    pub len: u32,
}

/// Why a packet isn't opened. Where several apply, the first one here.
#[derive(Clone, Copy, Debug, PartialEq, Eq)]
pub enum AnswerErr {
    /// There are fewer than 13 octets, RPL isn't their number less 2, or RHL is none; or with CC there are fewer than
    /// 21 octets, or what is ciphered isn't whole blocks.
    Form,
    /// The packet has the unsecured form, with this status code.
    Unsecured(u8),
    /// CC isn't the one of the deciphered octets.
    CcWrong,
    /// PCNTR is above the number of octets behind CC.
    Padding,
    /// Memory is wanting.
    Memory,
}

impl fmt::Display for AnswerErr {
    fn fmt<W: fmt::Write>(&self, f: &mut fmt::Formatter<W>) -> fmt::Result {
        match self {
            AnswerErr::Form => write!(f, "no form of a response packet"),
            AnswerErr::Unsecured(status) => write!(
                f,
                "unsecured response with status {status:02x}"
            ),
            AnswerErr::CcWrong => write!(f, "wrong cryptographic checksum"),
            AnswerErr::Padding => write!(f, "more padding than octets"),
            AnswerErr::Memory => write!(f, "out of memory"),
        }
    }
}

impl Error for AnswerErr {}

impl From<AllocError> for AnswerErr {
    ghost from_gives = { λ _ error. error ≡ Memory };

    fn from(_error: AllocError) -> AnswerErr {
        AnswerErr::Memory
    }
}

impl From<ota_core::Memory> for AnswerErr {
    ghost from_gives = { λ _ error. error ≡ Memory };

    fn from(_error: ota_core::Memory) -> AnswerErr {
        AnswerErr::Memory
    }
}
