//! What the ciphers do for a packet of 74 octets and its answer of 38.

use aes_modes::{Keys, cbc_decrypt, cbc_encrypt, cmac8};

/// CMAC of all octets of the packet but CC, and CBC of those behind TAR; for the answer likewise, with three octets of its
/// user data header under the CMAC.
fn for_packet(keys: &Keys, packet: &mut [u8; 64], answer: &mut [u8; 32]) {
    cbc_decrypt(keys.kic(), packet);
    let mut checked = [0x5A; 66];
    checked[..64].copy_from_slice(packet);
    let code = cmac8(keys.kid(), &checked);
    answer[0] ^= code[0];
    let mut checked = [0x5A; 33];
    checked[..32].copy_from_slice(answer);
    let code = cmac8(keys.kid(), &checked);
    answer[1] ^= code[0];
    cbc_encrypt(keys.kic(), answer);
    packet[0] ^= answer[0];
}

/// So many packets under the same keys. The octet goes through all of them, so that none can be left out.
pub fn in_turn(keys: &Keys, turns: u32) -> u8 {
    let mut packet = [0x5A; 64];
    let mut answer = [0x5A; 32];
    for _ in 0..turns {
        for_packet(keys, &mut packet, &mut answer);
    }
    answer[0]
}

/// So many packets, each with the schedules of its keys made anew.
pub fn with_keys(kic: &[u8; 16], kid: &[u8; 16], turns: u32) -> u8 {
    let mut packet = [0x5A; 64];
    let mut answer = [0x5A; 32];
    let mut key = *kic;
    for _ in 0..turns {
        key[0] ^= answer[0];
        if let Ok(keys) = Keys::new(&key, kid) {
            for_packet(&keys, &mut packet, &mut answer);
        }
    }
    answer[0]
}
