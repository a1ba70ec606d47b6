// The octets that say how a packet is secured.
ghost use Rattle.std.specs.Prelude.{◌≡◌, ◌≢◌, ◌≤◌, ℕ, Some, None, [], ◌∷◌, IfOk, OnErr};
ghost use Rattle.std.specs.Result.{result_ok};
ghost use Rattle.ota_core.specs.declared.security.Spi.{Spi};
ghost use Rattle.ota_core.specs.Security.{spi_octets, key_octet, command_security, answer_security, read_command_security, read_answer_security, read_spi_octets, read_key_octet};

use crate::keysets::Mode;
use std::error::Error;
use std::fmt;

/// The security parameter indicator, SPI (ETSI TS 102 225, 5.1.1), as far as the profile goes: a command and its
/// response always have a cryptographic checksum, and the response always comes, as SMS-SUBMIT.
#[derive(Clone, Copy, Debug, PartialEq, Eq)]
pub struct Spi {
    /// Whether the command is ciphered.
    pub ciphered: bool,
    /// How the card compares the counter.
    pub mode: Mode,
    /// Whether the response is ciphered.
    pub answer_ciphered: bool,
}

/// Octets of an SPI, KIc or KID that the profile doesn't have.
#[derive(Clone, Copy, Debug, PartialEq, Eq)]
pub struct NotProfile;

impl fmt::Display for NotProfile {
    fn fmt<W: fmt::Write>(&self, f: &mut fmt::Formatter<W>) -> fmt::Result {
        write!(f, "no security of the profile")
    }
}

impl Error for NotProfile {}

/// Reads the two octets of an SPI (ETSI TS 102 225, 5.1.1). It is refused exactly where they are none of the eight
/// pairs of the profile.
pub fn read_spi(octets: [u8; 2]) -> Result<Spi, NotProfile>
    ensures value { result_ok result ≡ read_spi_octets octets }
    ensures written { IfOk result (λ spi. octets ≡ spi_octets spi) }
    ensures refused { OnErr result ((spi : Spi) → octets ≢ spi_octets spi) }
{
    let [first, second] = octets;
    match (read_command_security(first), read_answer_security(second)) {
        (Some((mode, ciphered)), Some(answer_ciphered)) => Ok(Spi {
            ciphered,
            mode,
            answer_ciphered,
        }),
        _ => Err(NotProfile),
    }
}

/// The two octets of an SPI (ETSI TS 102 225, 5.1.1).
pub fn write_spi(spi: Spi) -> [u8; 2]
    ensures { result ≡ spi_octets spi }
{
    [
        command_security(spi.mode, spi.ciphered),
        answer_security(spi.answer_ciphered),
    ]
}

/// The key version number, 1 to 15, in a KIc (ETSI TS 102 225, 5.1.2). It is refused exactly where the key isn't one
/// of AES in CBC mode with such a number.
pub fn read_kic(octet: u8) -> Result<u8, NotProfile>
    ensures value { result_ok result ≡ read_key_octet octet }
    ensures written { IfOk result (λ kvn. (1 ≤ kvn) × (kvn ≤ 15) × (octet ≡ key_octet kvn)) }
    ensures refused { OnErr result ((kvn : ℕ) → 1 ≤ kvn → kvn ≤ 15 → octet ≢ key_octet kvn) }
{
    read_key(octet)
}

/// The key version number, 1 to 15, in a KID (ETSI TS 102 225, 5.1.3). It is refused exactly where the key isn't one
/// of AES in CMAC mode with such a number.
pub fn read_kid(octet: u8) -> Result<u8, NotProfile>
    ensures value { result_ok result ≡ read_key_octet octet }
    ensures written { IfOk result (λ kvn. (1 ≤ kvn) × (kvn ≤ 15) × (octet ≡ key_octet kvn)) }
    ensures refused { OnErr result ((kvn : ℕ) → 1 ≤ kvn → kvn ≤ 15 → octet ≢ key_octet kvn) }
{
    read_key(octet)
}

/// The KIc or KID of a key version number (ETSI TS 102 225, 5.1.2 and 5.1.3).
pub fn write_key(kvn: u8) -> u8
    requires above { 1 ≤ kvn }
    requires below { kvn ≤ 15 }
    ensures octet { result ≡ key_octet kvn }
    ensures read { read_key_octet result ≡ Some kvn }
{
    kvn * 16 + 2
}

fn read_key(octet: u8) -> Result<u8, NotProfile>
    ensures value { result_ok result ≡ read_key_octet octet }
    ensures written { IfOk result (λ kvn. (1 ≤ kvn) × (kvn ≤ 15) × (octet ≡ key_octet kvn)) }
    ensures refused { OnErr result ((kvn : ℕ) → 1 ≤ kvn → kvn ≤ 15 → octet ≢ key_octet kvn) }
{
    if octet % 16 == 2 && octet / 16 > 0 {
        Ok(octet / 16)
    } else {
        Err(NotProfile)
    }
}

fn command_security(mode: Mode, ciphered: bool) -> u8
    ensures { result ≡ command_security mode ciphered }
{
    match (mode, ciphered) {
        (Mode::Higher, false) => 0x12,
        (Mode::Higher, true) => 0x16,
        (Mode::Next, false) => 0x1A,
        (Mode::Next, true) => 0x1E,
    }
}

fn answer_security(ciphered: bool) -> u8
    ensures { result ≡ answer_security ciphered }
{
    if ciphered { 0x39 } else { 0x29 }
}

fn read_command_security(octet: u8) -> Option<(Mode, bool)>
    ensures { result ≡ read_command_security octet }
{
    match octet {
        0x12 => Some((Mode::Higher, false)),
        0x16 => Some((Mode::Higher, true)),
        0x1A => Some((Mode::Next, false)),
        0x1E => Some((Mode::Next, true)),
        _ => None,
    }
}

fn read_answer_security(octet: u8) -> Option<bool>
    ensures { result ≡ read_answer_security octet }
{
    match octet {
        0x29 => Some(false),
        0x39 => Some(true),
        _ => None,
    }
}

#[cfg(test)]
mod tests;
