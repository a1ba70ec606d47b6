//! The fields of an entry as they are read: each with what follows it.

ghost use Rattle.std.specs.Prelude.{◌≡◌, ◌==◌, option_map};
ghost use Rattle.std.specs.Int.{w32, w64};
ghost use Rattle.counter_journal.specs.EntryReading.{octet_at, number_at, counter_at, keyset_at, is_kvn, mode_of, flag_of, manner_at, key_at, keys_in, facts_in, job_at, tar_at, moment_at, short_name_at, name_at};

use crate::versions::Version;
use ota_core::{CardId, Counter, JobId, KeyBytes, KeysetFacts, KeysetId, Mode, Tar};

/// The greatest number of octets in the name of a campaign.
const LONGEST_NAME: usize = 32;

/// The next octet.
pub fn octet_at(octets: &[u8]) -> Option<(u8, &[u8])>
    ensures { option_map (λ x. (x.0, x.1.now)) result ≡ octet_at octets.now }
{
    match octets {
        [] => None,
        [octet, rest @ ..] => Some((*octet, rest)),
    }
}

/// A number of four octets, the highest first.
pub fn four_at(octets: &[u8]) -> Option<(u32, &[u8])>
    ensures { option_map (λ x. (x.0, x.1.now)) result ≡ number_at w32 octets.now }
{
    if octets.len() < 4 {
        return None;
    }
    let (number, rest) = octets.split_at(4);
    let number = u32::from_be_bytes([number[0], number[1], number[2], number[3]]);
    Some((number, rest))
}

/// A number of eight octets, the highest first.
fn eight_at(octets: &[u8]) -> Option<(u64, &[u8])>
    ensures { option_map (λ x. (x.0, x.1.now)) result ≡ number_at w64 octets.now }
{
    if octets.len() < 8 {
        return None;
    }
    let (number, rest) = octets.split_at(8);
    let number = u64::from_be_bytes([
        number[0], number[1], number[2], number[3], number[4], number[5], number[6], number[7],
    ]);
    Some((number, rest))
}

/// A counter, of five octets.
pub fn counter_at(octets: &[u8]) -> Option<(Counter, &[u8])>
    ensures { option_map (λ x. (x.0, x.1.now)) result ≡ counter_at octets.now }
{
    if octets.len() < 5 {
        return None;
    }
    let (number, rest) = octets.split_at(5);
    let number = u64::from_be_bytes([
        0, 0, 0, number[0], number[1], number[2], number[3], number[4],
    ]);
    Some((Counter(number), rest))
}

/// A card and a key version number of it.
#[tactic(auto, unfolding(crate::specs::EntryReading::keyset_at))]
pub fn keyset_at(octets: &[u8]) -> Option<(KeysetId, &[u8])>
    ensures { option_map (λ x. (x.0, x.1.now)) result ≡ keyset_at octets.now }
{
    let (card, rest) = eight_at(octets)?;
    let (kvn, rest) = octet_at(rest)?;
    if !is_kvn(kvn) {
        return None;
    }
    Some((
        KeysetId {
            card: CardId(card),
            kvn,
        },
        rest,
    ))
}

fn is_kvn(kvn: u8) -> bool
    ensures { result ≡ is_kvn kvn }
{
    1 <= kvn && kvn <= 15
}

fn mode_of(octet: u8) -> Option<Mode>
    ensures { result ≡ mode_of octet }
{
    match octet {
        0x02 => Some(Mode::Higher),
        0x03 => Some(Mode::Next),
        _ => None,
    }
}

fn flag_of(octet: u8) -> Option<bool>
    ensures { result ≡ flag_of octet }
{
    match octet {
        0x00 => Some(false),
        0x01 => Some(true),
        _ => None,
    }
}

/// A counter mode, and whether packets are ciphered.
#[tactic(auto, unfolding(crate::specs::EntryReading::manner_at))]
fn manner_at(octets: &[u8]) -> Option<((Mode, bool), &[u8])>
    ensures { option_map (λ x. (x.0, x.1.now)) result ≡ manner_at octets.now }
{
    match octets {
        [mode, ciphered, rest @ ..] => {
            let mode = mode_of(*mode)?;
            let ciphered = flag_of(*ciphered)?;
            Some(((mode, ciphered), rest))
        }
        _ => None,
    }
}

/// A key behind its length.
#[tactic(auto, unfolding(crate::specs::EntryReading::key_at))]
fn key_at(octets: &[u8]) -> Option<(KeyBytes, &[u8])>
    ensures { option_map (λ x. (x.0, x.1.now)) result ≡ key_at octets.now }
{
    match octets {
        [] => None,
        [size, rest @ ..] => {
            let size = usize::from(*size);
            if rest.len() < size {
                return None;
            }
            let (key, rest) = rest.split_at(size);
            match KeyBytes::new(key) {
                Ok(key) => Some((key, rest)),
                Err(_) => None,
            }
        }
    }
}

/// The two keys, and nothing behind them.
#[tactic(auto, unfolding(crate::specs::EntryReading::keys_in))]
fn keys_in(octets: &[u8]) -> Option<(KeyBytes, KeyBytes)>
    ensures { result ≡ keys_in octets.now }
{
    match key_at(octets) {
        None => None,
        Some((kic, rest)) => match key_at(rest) {
            Some((kid, [])) => Some((kic, kid)),
            _ => None,
        },
    }
}

/// What a keyset is opened with.
#[tactic(auto, unfolding(crate::specs::EntryReading::facts_in))]
pub fn facts_in(octets: &[u8]) -> Option<KeysetFacts>
    ensures { result ≡ facts_in octets.now }
{
    match counter_at(octets) {
        None => None,
        Some((base, rest)) => {
            let ((mode, ciphered), rest) = manner_at(rest)?;
            match keys_in(rest) {
                None => None,
                Some((kic, kid)) => Some(KeysetFacts {
                    base,
                    mode,
                    ciphered,
                    kic,
                    kid,
                }),
            }
        }
    }
}

/// The campaign and the number of a job.
#[tactic(auto, unfolding(crate::specs::EntryReading::job_at))]
pub fn job_at(octets: &[u8]) -> Option<(JobId, &[u8])>
    ensures { option_map (λ x. (x.0, x.1.now)) result ≡ job_at octets.now }
{
    let (campaign, rest) = four_at(octets)?;
    let (job, rest) = four_at(rest)?;
    Some((JobId { campaign, job }, rest))
}

/// A toolkit application reference.
pub fn tar_at(octets: &[u8]) -> Option<(Tar, &[u8])>
    ensures { option_map (λ x. (x.0, x.1.now)) result ≡ tar_at octets.now }
{
    match octets {
        [first, second, third, rest @ ..] => Some((Tar([*first, *second, *third]), rest)),
        _ => None,
    }
}

/// A moment, which is 0 where the first version has none.
pub fn moment_at(version: Version, octets: &[u8]) -> Option<(u64, &[u8])>
    ensures { option_map (λ x. (x.0, x.1.now)) result ≡ moment_at version octets.now }
{
    match version {
        Version::First => Some((0, octets)),
        Version::Second => eight_at(octets),
    }
}

/// A name behind its length.
#[tactic(auto, unfolding(crate::specs::EntryReading::short_name_at))]
fn short_name_at(octets: &[u8]) -> Option<(&[u8], &[u8])>
    ensures { option_map (λ x. (x.0.now, x.1.now)) result ≡ short_name_at octets.now }
{
    match octets {
        [] => None,
        [size, rest @ ..] => {
            let size = usize::from(*size);
            if LONGEST_NAME < size {
                return None;
            }
            if rest.len() < size {
                return None;
            }
            Some(rest.split_at(size))
        }
    }
}

/// The name of a campaign, which is empty where the first version has none.
pub fn name_at(version: Version, octets: &[u8]) -> Option<(&[u8], &[u8])>
    ensures { option_map (λ x. (x.0.now, x.1.now)) result ≡ name_at version octets.now }
{
    match version {
        Version::First => Some((&[], octets)),
        Version::Second => short_name_at(octets),
    }
}
