//! The words of a line of work.

use aes_modes::Keys;
use anyhow::{Result, bail, ensure};
use ota_core::{Counter, Tar};
use std::alloc::Global;
use std::str::SplitWhitespace;

/// The next word's octets; `-` stands for none.
pub fn octets(alloc: Global, words: &mut SplitWhitespace<'_>) -> Result<Vec<u8>> {
    let word = words.next().unwrap_or("-");
    if word == "-" {
        return Ok(Vec::new(alloc));
    }
    Ok(hex::decode(alloc, word)?)
}

/// The next two words' keys: KIc, which ciphers, and KID.
pub fn keys(alloc: Global, words: &mut SplitWhitespace<'_>) -> Result<Keys> {
    let kic = octets(alloc, words)?;
    let kid = octets(alloc, words)?;
    Ok(Keys::new(&kic, &kid)?)
}

/// The next word's number of one octet.
pub fn octet(words: &mut SplitWhitespace<'_>) -> Result<u8> {
    Ok(words.next().unwrap_or("").parse::<u8>()?)
}

/// The next word's counter.
pub fn counter(words: &mut SplitWhitespace<'_>) -> Result<Counter> {
    let number = words.next().unwrap_or("").parse::<u64>()?;
    ensure!(number < 1 << 40, "a counter has five octets");
    Ok(Counter(number))
}

/// The next word's TAR.
pub fn tar(alloc: Global, words: &mut SplitWhitespace<'_>) -> Result<Tar> {
    let octets = octets(alloc, words)?;
    match octets.as_slice() {
        [a, b, c] => Ok(Tar([*a, *b, *c])),
        _ => bail!("a TAR has three octets"),
    }
}

/// Whether the next word says that a response is ciphered.
pub fn is_ciphered(words: &mut SplitWhitespace<'_>) -> Result<bool> {
    match words.next().unwrap_or("") {
        "plain" => Ok(false),
        "ciphered" => Ok(true),
        word => bail!("neither plain nor ciphered: {word:?}"),
    }
}

/// Octets in hexadecimal digits, `-` for none.
pub fn digits(alloc: Global, octets: &[u8]) -> Result<String> {
    if octets.is_empty() {
        return Ok(String::from_str(alloc, "-")?);
    }
    Ok(hex::encode(alloc, octets)?)
}
