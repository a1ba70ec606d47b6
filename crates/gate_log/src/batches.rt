//! A batch that is put together before it is added to a log.

ghost use Rattle.std.specs.Prelude.{◌≡◌, ◌+◌, ◌-◌, ◌^◌, ◌<◌, ◌≤◌, [], ◌∷◌, ◌++◌, length, drop, vec_len, vec_capacity, IfOk};
ghost use Rattle.std.specs.List.{flat_map};
ghost use Rattle.gate_log.specs.Log.{four, part_octets};
ghost use Rattle.gate_log.specs.Opening.{need_of};
ghost use Rattle.gate_log.specs.Batches.{MOST_PARTS, MOST_OCTETS, octets_in, framed, with_part};

use ota_core::Memory;
use std::alloc::Global;
use std::marker::Model;

/// A batch: parts that a log takes in together or not at all. Contracts see its parts, and the room for more.
#[derive(Debug, Drop)]
pub struct Batch {
    /// The batch as it is written, with a closed gate behind it.
    octets: Vec<u8>,
    /// How many parts it has.
    held: u32,
    parts_room: u32,
    octets_room: u32,
}

impl Model for Batch {
    ghost use Rattle.std.specs.Prelude.{vec_capacity};
    ghost use Rattle.gate_log.specs.Opening.{need_of};
    ghost use Rattle.gate_log.specs.Batches.{BatchState, parts_framed, IsKept};

    ghost Value = { BatchState };

    ghost view = { λ b. record { parts = parts_framed b.octets.items; parts_room = b.parts_room; octets_room = b.octets_room } };

    ghost invariant = { λ b. IsKept b.octets.items (vec_capacity b.octets) b.held b.parts_room b.octets_room };
}

impl Batch {
    /// An empty batch, with room for so many parts of 1 to 16, that have so many octets in all.
    pub fn room(alloc: Global, parts: u32, octets: u32) -> Result<Batch, Memory>
        requires some { 1 ≤ parts }
        requires few { parts ≤ MOST_PARTS }
        requires short { octets ≤ MOST_OCTETS }
        ensures { IfOk result (λ batch. batch ≡ record { parts = []; parts_room = parts; octets_room = octets }) }
    {
        let mut framed = Vec::with_capacity(alloc, 5 + 4 * parts as usize + octets as usize)?;
        put(&mut framed, &[0; 5]);
        Ok(Batch {
            octets: framed,
            held: 0,
            parts_room: parts,
            octets_room: octets,
        })
    }

    /// Adds a part at the end, for which there is room. It wants no memory.
    pub fn put(&mut self, part: &[u8])
        requires some { 1 ≤ self.old.parts_room }
        requires room { length part.now ≤ self.old.octets_room }
        requires short { length part.now ≤ 65536 }
        ensures { self.new ≡ record { parts = self.old.parts ++ part.now ∷ []; parts_room = self.old.parts_room - 1; octets_room = self.old.octets_room - length part.now } }
    {
        add_part(&mut self.octets, part);
        self.held += 1;
        self.parts_room -= 1;
        self.octets_room -= part.len() as u32;
    }

    /// Takes all parts out, and gives their room back.
    pub fn clear(&mut self)
        ensures { self.new ≡ record { parts = []; parts_room = self.old.parts_room + length self.old.parts; octets_room = self.old.octets_room + octets_in self.old.parts } }
    {
        self.parts_room += self.held;
        self.octets_room += self.octets.len() as u32 - 5 - 4 * self.held;
        self.held = 0;
        self.octets.truncate(0);
        put(&mut self.octets, &[0; 5]);
    }

    /// The batch as it is written, with a closed gate behind it.
    pub(crate) fn framed(&self) -> &[u8]
        ensures octets { result.now ≡ framed self.now.parts }
        ensures small { length (flat_map part_octets self.now.parts) < 2 ^ 32 }
        ensures need { length result.now ≡ need_of self.now.parts }
    {
        self.octets.as_slice()
    }
}

/// Adds octets for which there is room.
fn put(octets: &mut Vec<u8>, more: &[u8])
    requires { vec_len octets.old + length more.now ≤ vec_capacity octets.old }
    ensures items { octets.new.items ≡ octets.old.items ++ more.now }
    ensures len { vec_len octets.new ≡ vec_len octets.old + length more.now }
    ensures capacity { vec_capacity octets.old ≤ vec_capacity octets.new }
{
    octets.extend_from_slice(more).unwrap();
}

/// Writes a number over the first four octets.
#[tactic(auto, unfolding(crate::specs::Log::four))]
fn put_size(octets: &mut Vec<u8>, size: u32)
    requires { 4 ≤ vec_len octets.old }
    ensures items { octets.new.items ≡ four size ++ drop 4 octets.old.items }
    ensures len { vec_len octets.new ≡ vec_len octets.old }
    ensures capacity { vec_capacity octets.old ≤ vec_capacity octets.new }
{
    let bytes = size.to_be_bytes();
    octets[0] = bytes[0];
    octets[1] = bytes[1];
    octets[2] = bytes[2];
    octets[3] = bytes[3];
}

/// Adds a length in four octets, for which there is room.
#[tactic(auto, unfolding(crate::specs::Log::four))]
fn put_length(octets: &mut Vec<u8>, len: u32)
    requires { vec_len octets.old + 4 ≤ vec_capacity octets.old }
    ensures items { octets.new.items ≡ octets.old.items ++ four len }
    ensures len { vec_len octets.new ≡ vec_len octets.old + 4 }
    ensures capacity { vec_capacity octets.old ≤ vec_capacity octets.new }
{
    put(octets, &len.to_be_bytes());
}

/// Adds a part to a batch as it is written.
fn add_part(octets: &mut Vec<u8>, part: &[u8])
    requires long { 5 ≤ vec_len octets.old }
    requires room { vec_len octets.old + 4 + length part.now ≤ vec_capacity octets.old }
    requires short { vec_len octets.old + 4 + length part.now < 2 ^ 32 }
    ensures items { octets.new.items ≡ with_part octets.old.items part.now }
    ensures capacity { vec_capacity octets.old ≤ vec_capacity octets.new }
{
    octets.truncate(octets.len() - 1);
    put_length(octets, part.len() as u32);
    put(octets, part);
    put(octets, &[0]);
    put_size(octets, octets.len() as u32 - 5);
}
