//! The two keys of a keyset.

ghost use Rattle.std.specs.Prelude.{◌≡◌, ◌↔◌, IfOk, IsOk, length};
ghost use Rattle.gf_aes.specs.Cipher.{IsKeyLength};

use gf_aes::{KeyLength, KeySchedule};
use std::marker::Model;

/// The schedules of a keyset's two keys: KIc ciphers, KID makes the cryptographic checksum.
#[derive(Drop)]
pub struct Keys {
    kic: KeySchedule,
    kid: KeySchedule,
}

impl Model for Keys {
    ghost use Rattle.aes_modes.specs.KeyPair.{KeyPair};

    ghost Value = { KeyPair };

    ghost view = { λ k. record { kic = k.kic; kid = k.kid } };
}

impl Keys {
    /// Both schedules, refused exactly where a key's length is not 16, 24 or 32 octets.
    pub fn new(kic: &[u8], kid: &[u8]) -> Result<Keys, KeyLength>
        ensures keys { IfOk result (λ keys. keys ≡ record { kic = kic.now; kid = kid.now }) }
        ensures refused { IsOk result ↔ (IsKeyLength (length kic.now) × IsKeyLength (length kid.now)) }
    {
        Ok(Keys {
            kic: KeySchedule::new(kic)?,
            kid: KeySchedule::new(kid)?,
        })
    }

    /// The schedule of KIc.
    pub fn kic(&self) -> &KeySchedule
        ensures { result.now ≡ self.now.kic }
    {
        &self.kic
    }

    /// The schedule of KID.
    pub fn kid(&self) -> &KeySchedule
        ensures { result.now ≡ self.now.kid }
    {
        &self.kid
    }
}

#[cfg(test)]
mod tests {
    use super::*;

    #[test]
    fn both_lengths_count(rt: HostRuntime) {
        let octets = [0x5a; 32];
        for (kic_len, kid_len, is_accepted) in [
            (16, 16, true),
            (24, 32, true),
            (16, 15, false),
            (15, 16, false),
            (0, 0, false),
        ] {
            let kic = octets.get(..kic_len).unwrap_or(&[]);
            let kid = octets.get(..kid_len).unwrap_or(&[]);
            assert_eq!(rt;
                Keys::new(kic, kid).is_ok(),
                is_accepted,
                "{kic_len}, {kid_len}"
            );
        }
    }
}
