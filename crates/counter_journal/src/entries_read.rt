//! How an entry is read from its octets.

ghost use Rattle.std.specs.Prelude.{◌≡◌, option_map, IfOk};
ghost use Rattle.counter_journal.specs.EntryReading.{front_at, open_in, is_body, purpose_at, reserve_in, done_in, status_of, refused_in, close_in, entry_behind, entry_in};

use crate::fields::{
    counter_at, facts_in, four_at, job_at, keyset_at, moment_at, name_at, octet_at, tar_at,
};
use crate::versions::Version;
use ota_core::{Counter, Entry, JobId, KeysetId, Memory, Octets, Tar};
use std::alloc::Global;
use std::marker::Model;

/// The greatest number of octets in a script.
const LONGEST_BODY: usize = 4096;

/// What each entry begins with: its kind, its sender, its keyset and its moment.
#[derive(Clone, Copy, Debug)]
struct Front {
    kind: u8,
    by: u32,
    moment: u64,
    keyset: KeysetId,
}

impl Model for Front {
    ghost use Rattle.counter_journal.specs.EntryReading.{Front};

    ghost Value = { Front };

    ghost view = { λ f. record { kind = f.kind; by = f.by; moment = f.moment; keyset = f.keyset } };

    ghost inverse = { λ f. record { kind = f.kind; by = f.by; moment = f.moment; keyset = f.keyset } };
}

/// The entry of this version that these octets are, all of them. None where they are none.
#[tactic(auto, unfolding(crate::specs::EntryReading::entry_in))]
pub fn entry_in(alloc: Global, version: Version, octets: &[u8]) -> Result<Option<Entry>, Memory>
    ensures { IfOk result (λ entry. entry ≡ entry_in version octets.now) }
{
    match front_at(version, octets) {
        None => Ok(None),
        Some((front, rest)) => entry_behind(alloc, version, front, rest),
    }
}

#[tactic(auto, unfolding(crate::specs::EntryReading::front_at))]
fn front_at(version: Version, octets: &[u8]) -> Option<(Front, &[u8])>
    ensures { option_map (λ x. (x.0, x.1.now)) result ≡ front_at version octets.now }
{
    let (kind, rest) = octet_at(octets)?;
    let (by, rest) = four_at(rest)?;
    match keyset_at(rest) {
        None => None,
        Some((keyset, rest)) => {
            let (moment, rest) = moment_at(version, rest)?;
            Some((
                Front {
                    kind,
                    by,
                    moment,
                    keyset,
                },
                rest,
            ))
        }
    }
}

/// What follows the front, by its kind.
#[tactic(auto, unfolding(crate::specs::EntryReading::entry_behind))]
fn entry_behind(
    alloc: Global,
    version: Version,
    front: Front,
    octets: &[u8],
) -> Result<Option<Entry>, Memory>
    ensures { IfOk result (λ entry. entry ≡ entry_behind version front octets.now) }
{
    match front.kind {
        0x01 => Ok(open_in(front, octets)),
        0x02 => reserve_in(alloc, version, front, octets),
        0x03 => done_in(alloc, front, octets),
        0x04 => Ok(refused_in(front, octets)),
        0x05 => Ok(close_in(front, octets)),
        _ => Ok(None),
    }
}

#[tactic(auto, unfolding(crate::specs::EntryReading::open_in))]
fn open_in(front: Front, octets: &[u8]) -> Option<Entry>
    ensures { result ≡ open_in front octets.now }
{
    match facts_in(octets) {
        None => None,
        Some(facts) => Some(Entry::Open {
            by: front.by,
            moment: front.moment,
            keyset: front.keyset,
            facts,
        }),
    }
}

/// What a reservation is made for.
#[derive(Clone, Copy, Debug)]
struct Purpose {
    counter: Counter,
    job: JobId,
    tar: Tar,
}

impl Model for Purpose {
    ghost use Rattle.counter_journal.specs.EntryReading.{Purpose};

    ghost Value = { Purpose };

    ghost view = { λ p. record { counter = p.counter; job = p.job; tar = p.tar } };

    ghost inverse = { λ p. record { counter = p.counter; job = p.job; tar = p.tar } };
}

#[tactic(auto, unfolding(crate::specs::EntryReading::purpose_at))]
fn purpose_at(octets: &[u8]) -> Option<(Purpose, &[u8])>
    ensures { option_map (λ x. (x.0, x.1.now)) result ≡ purpose_at octets.now }
{
    match counter_at(octets) {
        None => None,
        Some((counter, rest)) => match job_at(rest) {
            None => None,
            Some((job, rest)) => match tar_at(rest) {
                None => None,
                Some((tar, rest)) => Some((Purpose { counter, job, tar }, rest)),
            },
        },
    }
}

#[tactic(auto, unfolding(crate::specs::EntryReading::reserve_in))]
fn reserve_in(
    alloc: Global,
    version: Version,
    front: Front,
    octets: &[u8],
) -> Result<Option<Entry>, Memory>
    ensures { IfOk result (λ entry. entry ≡ reserve_in version front octets.now) }
{
    match purpose_at(octets) {
        None => Ok(None),
        Some((purpose, rest)) => match name_at(version, rest) {
            None => Ok(None),
            Some((name, body)) => {
                if !is_body(body) {
                    return Ok(None);
                }
                let name = Octets::from_slice(alloc, name)?;
                let body = Octets::from_slice(alloc, body)?;
                Ok(Some(Entry::Reserve {
                    by: front.by,
                    moment: front.moment,
                    keyset: front.keyset,
                    counter: purpose.counter,
                    job: purpose.job,
                    tar: purpose.tar,
                    name,
                    body,
                }))
            }
        },
    }
}

fn is_body(octets: &[u8]) -> bool
    ensures { result ≡ is_body octets.now }
{
    1 <= octets.len() && octets.len() <= LONGEST_BODY
}

#[tactic(auto, unfolding(crate::specs::EntryReading::done_in))]
fn done_in(alloc: Global, front: Front, octets: &[u8]) -> Result<Option<Entry>, Memory>
    ensures { IfOk result (λ entry. entry ≡ done_in front octets.now) }
{
    match counter_at(octets) {
        None => Ok(None),
        Some((counter, answer)) => {
            let answer = Octets::from_slice(alloc, answer)?;
            Ok(Some(Entry::Done {
                by: front.by,
                moment: front.moment,
                keyset: front.keyset,
                counter,
                answer,
            }))
        }
    }
}

#[tactic(auto, unfolding(crate::specs::EntryReading::refused_in))]
fn refused_in(front: Front, octets: &[u8]) -> Option<Entry>
    ensures { result ≡ refused_in front octets.now }
{
    match counter_at(octets) {
        Some((counter, [status])) => Some(Entry::Refused {
            by: front.by,
            moment: front.moment,
            keyset: front.keyset,
            counter,
            status: *status,
        }),
        _ => None,
    }
}

fn close_in(front: Front, octets: &[u8]) -> Option<Entry>
    ensures { result ≡ close_in front octets.now }
{
    if !octets.is_empty() {
        return None;
    }
    Some(Entry::Close {
        by: front.by,
        moment: front.moment,
        keyset: front.keyset,
    })
}
