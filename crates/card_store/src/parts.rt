//! The parts of a card's store: how they are read and written.

ghost use Rattle.std.specs.Prelude.{◌+◌, ◌^◌, ◌<◌, ◌≡◌, ◌≤◌, [], ◌∷◌, length, IfOk, option_map};
ghost use Rattle.gate_log.specs.Opening.{need_of};
ghost use Rattle.card_store.specs.Parts.{counter_part, command_part, part_in};
ghost use Rattle.card_store.specs.PartsRead.{said_by};

use gate_log::Batch;
use ota_core::{Counter, Memory, Tar};
use std::alloc::Global;

/// The head of the log: a name and a version.
pub const HEAD: [u8; 9] = [b'O', b'T', b'A', b'C', 0x01, 0x00, 0x00, 0x00, 0x00];

/// The kind of a part that uses a counter up, and of one that says that a command was run.
const COUNTER: u8 = 0x01;

const COMMAND: u8 = 0x02;

/// The greatest number of octets in front of the script in a part.
const FRONT: u32 = 10;

/// A counter of the keyset with this key version number is used up, with a TAR and a script.
#[derive(Drop)]
pub struct CounterPart<'a> {
    pub kvn: u8,
    pub counter: Counter,
    pub tar: Tar,
    pub body: &'a [u8],
}

/// What a part of a store says.
#[derive(Drop)]
pub enum ReadPart<'a> {
    Counter(CounterPart<'a>),
    /// The next command of the script that was stored last was run.
    Command,
}

/// What a part says, where it has one of the two forms.
pub fn part_in(part: &[u8]) -> Option<ReadPart<'_>>
    ensures { option_map said_by result ≡ part_in part.now }
{
    match part {
        [kind] => {
            if *kind == COMMAND {
                return Some(ReadPart::Command);
            }
            None
        }
        [kind, kvn, a, b, c, d, e, t, u, v, body @ ..] => {
            if *kind != COUNTER {
                return None;
            }
            Some(ReadPart::Counter(CounterPart {
                kvn: *kvn,
                counter: Counter(u64::from_be_bytes([0, 0, 0, *a, *b, *c, *d, *e])),
                tar: Tar([*t, *u, *v]),
                body,
            }))
        }
        _ => None,
    }
}

/// The batch of a counter with its TAR and its script.
pub fn counter_batch(
    alloc: Global,
    kvn: u8,
    counter: Counter,
    tar: Tar,
    body: &[u8],
) -> Result<Batch, Memory>
    requires { length body.now ≤ 34168 }
    ensures part { IfOk result (λ batch. batch.parts ≡ counter_part kvn counter tar body.now ∷ []) }
    ensures need { IfOk result (λ batch. need_of batch.parts ≡ 19 + length body.now) }
    ensures ranges { IfOk result (λ _. (counter < 2 ^ 40) × (length tar ≡ 3)) }
{
    let part = counter_part(alloc, kvn, counter, tar, body)?;
    let mut batch = Batch::room(alloc, 1, FRONT + body.len() as u32)?;
    batch.put(&part);
    Ok(batch)
}

/// The batch that says that a command was run.
pub fn command_batch(alloc: Global) -> Result<Batch, Memory>
    ensures { IfOk result (λ batch. batch.parts ≡ command_part ∷ []) }
{
    let mut batch = Batch::room(alloc, 1, 1)?;
    batch.put(&[COMMAND]);
    Ok(batch)
}

/// A counter, as it is written with its TAR and its script.
#[tactic(auto, unfolding(crate::specs::Parts::five))]
fn counter_part(
    alloc: Global,
    kvn: u8,
    counter: Counter,
    tar: Tar,
    body: &[u8],
) -> Result<Vec<u8>, Memory>
    requires { length body.now ≤ 34168 }
    ensures part { IfOk result (λ part. part.items ≡ counter_part kvn counter tar body.now) }
    ensures length { IfOk result (λ part. length part.items ≡ 10 + length body.now) }
    ensures ranges { IfOk result (λ _. (counter < 2 ^ 40) × (length tar ≡ 3)) }
{
    let number = counter.0.to_be_bytes();
    let mut part = Vec::with_capacity(alloc, FRONT as usize + body.len())?;
    part.extend_from_slice(&[COUNTER, kvn])?;
    part.extend_from_slice(&number[3..])?;
    part.extend_from_slice(&tar.0)?;
    part.extend_from_slice(body)?;
    Ok(part)
}
