//! The words of a line of work.

use anyhow::{Result, bail, ensure};
use arrayvec::ArrayVec;
use disk_model::Image;
use ota_core::{
    CardId, Counter, Job, JobId, KeyBytes, KeysetFacts, KeysetId, Mode, Octets, Reference, Tar,
};
use std::alloc::Global;
use std::str::SplitWhitespace;

pub type Words<'a> = SplitWhitespace<'a>;

fn word<'a>(words: &mut Words<'a>) -> &'a str {
    words.next().unwrap_or("")
}

pub fn number(words: &mut Words<'_>) -> Result<u64> {
    Ok(word(words).parse::<u64>()?)
}

pub fn octets(alloc: Global, words: &mut Words<'_>) -> Result<Vec<u8>> {
    Ok(hex::decode(alloc, word(words))?)
}

pub fn message(alloc: Global, words: &mut Words<'_>) -> Result<ArrayVec<u8, 140>> {
    let octets = octets(alloc, words)?;
    let mut message = ArrayVec::new();
    ensure!(
        message.try_extend_from_slice(&octets).is_ok(),
        "a message has at most 140 octets"
    );
    Ok(message)
}

pub fn card(words: &mut Words<'_>) -> Result<CardId> {
    Ok(CardId(number(words)?))
}

pub fn keyset(words: &mut Words<'_>) -> Result<KeysetId> {
    let card = card(words)?;
    let kvn = word(words).parse::<u8>()?;
    ensure!(1 <= kvn && kvn <= 15, "a key version number is 1 to 15");
    Ok(KeysetId { card, kvn })
}

pub fn counter(words: &mut Words<'_>) -> Result<Counter> {
    let number = number(words)?;
    ensure!(number < 1 << 40, "a counter has five octets");
    Ok(Counter(number))
}

fn mode(words: &mut Words<'_>) -> Result<Mode> {
    match word(words) {
        "higher" => Ok(Mode::Higher),
        "next" => Ok(Mode::Next),
        word => bail!("neither higher nor next: {word:?}"),
    }
}

fn key(alloc: Global, words: &mut Words<'_>) -> Result<KeyBytes> {
    Ok(KeyBytes::new(&octets(alloc, words)?)?)
}

/// The facts of a ciphered keyset: its base, its mode and its keys.
pub fn facts(alloc: Global, words: &mut Words<'_>) -> Result<KeysetFacts> {
    let base = counter(words)?;
    let mode = mode(words)?;
    let kic = key(alloc, words)?;
    let kid = key(alloc, words)?;
    Ok(KeysetFacts {
        base,
        mode,
        ciphered: true,
        kic,
        kid,
    })
}

pub fn image(words: &mut Words<'_>) -> Result<Image> {
    match word(words) {
        "old" => Ok(Image::Old),
        "new" => Ok(Image::New),
        "torn" => Ok(Image::Torn),
        word => bail!("no image: {word:?}"),
    }
}

fn tar(alloc: Global, words: &mut Words<'_>) -> Result<Tar> {
    let octets = octets(alloc, words)?;
    match octets.as_slice() {
        [a, b, c] => Ok(Tar([*a, *b, *c])),
        _ => bail!("a TAR has three octets"),
    }
}

/// A job of campaign 7: its number, its keyset, its TAR and its script.
fn job(alloc: Global, words: &mut Words<'_>) -> Result<Job> {
    let job = word(words).parse::<u32>()?;
    let keyset = keyset(words)?;
    let tar = tar(alloc, words)?;
    let body = Octets::from(octets(alloc, words)?);
    Ok(Job {
        id: JobId { campaign: 7, job },
        keyset,
        tar,
        body,
    })
}

/// As many jobs as the first word says.
pub fn jobs(alloc: Global, words: &mut Words<'_>) -> Result<Vec<Job>> {
    let mut jobs = Vec::new(alloc);
    for _ in 0..number(words)? {
        jobs.push(job(alloc, words)?)?;
    }
    Ok(jobs)
}

/// A reference as its octets in hexadecimal digits.
pub fn reference_text(alloc: Global, reference: Reference) -> Result<String> {
    match reference {
        Reference::Short(octet) => Ok(hex::encode(alloc, &[octet])?),
        Reference::Wide(number) => Ok(hex::encode(alloc, &number.to_be_bytes())?),
    }
}
