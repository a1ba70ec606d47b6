//! What a line of work gives.

use aes_modes::{cbc_decrypt, cbc_encrypt, cmac, cmac8};
use anyhow::{Result, bail, ensure};
use gf_aes::{CipherBlock, KeySchedule};
use std::alloc::Global;

/// The schedule of a key in hexadecimal digits.
fn schedule(alloc: Global, digits: &str) -> Result<KeySchedule> {
    let key = hex::decode(alloc, digits)?;
    Ok(KeySchedule::new(key.as_slice())?)
}

/// AES of one block, or its inverse.
fn block(alloc: Global, key: &KeySchedule, octets: &[u8], decrypts: bool) -> Result<String> {
    ensure!(octets.len() == 16, "a block has 16 octets");
    let mut block = CipherBlock::from_octets(octets);
    if decrypts {
        key.decrypt(&mut block);
    } else {
        key.encrypt(&mut block);
    }
    Ok(hex::encode(alloc, block.to_octets().as_slice())?)
}

/// CBC of whole blocks, or its inverse.
fn chained(alloc: Global, key: &KeySchedule, octets: &mut [u8], decrypts: bool) -> Result<String> {
    ensure!(octets.len() % 16 == 0, "CBC wants whole blocks");
    if decrypts {
        cbc_decrypt(key, octets);
    } else {
        cbc_encrypt(key, octets);
    }
    Ok(hex::encode(alloc, &*octets)?)
}

/// What a task gives with a key and octets, all in hexadecimal digits.
pub fn answer(alloc: Global, task: &str, key: &str, text: &str) -> Result<String> {
    let key = schedule(alloc, key)?;
    let mut octets = hex::decode(alloc, text)?;
    match task {
        "aes" => block(alloc, &key, octets.as_slice(), false),
        "unaes" => block(alloc, &key, octets.as_slice(), true),
        "cbc" => chained(alloc, &key, octets.as_mut_slice(), false),
        "uncbc" => chained(alloc, &key, octets.as_mut_slice(), true),
        "cmac" => Ok(hex::encode(alloc, cmac(&key, octets.as_slice()).as_slice())?),
        "cmac8" => Ok(hex::encode(alloc, cmac8(&key, octets.as_slice()).as_slice())?),
        _ => bail!("no such task: {task:?}"),
    }
}
