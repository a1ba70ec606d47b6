ghost use Rattle.std.specs.Prelude.{◌≡◌, ◌<◌, ◌≤◌, ◌==◌, ◌&&◌, ◌++◌, [], if◌then◌else◌, Some, None, All, length, map, reverse, string_bytes, IfOk, OnOk, codes};
ghost use Rattle.std.specs.Bool.{OnTrue};
ghost use Rattle.std.specs.Option.{option_copied, option_map, option_map_or};
ghost use Rattle.std.specs.Fmt.{decimal};
ghost use Rattle.ota_core.specs.Outcome.{settled_by};
ghost use Rattle.ota_core.specs.Questions.{place_of};
ghost use Rattle.sms_segments.specs.Cut.{pieces_count};
ghost use Rattle.sms_segments.specs.Header.{is_wide_reference};
ghost use Rattle.reports.specs.Report.{counter_text, entries_in};
ghost use Rattle.reports.specs.Packets.{HasBody, packet_header, packet_for, reference_of, message_line, lines_of_packet, lines_of_reserved, lines_for, lines_of_job, packets_of};

use crate::lane_books::LaneBook;
use crate::lane_indexes::{LaneIndex, index_of, lane_indexes};
use crate::report::{put_counter, put_hex};
use aes_modes::Keys;
use command_packet::{PacketBuf, build_in};
use ota_core::{
    Counter, Entry, History, Job, JobId, KeysetFacts, Memory, Reference, Reserved, Spi,
};
use sms_segments::{is_wide_reference, piece, pieces_of};
use std::alloc::Global;

/// The messages of the jobs that are reserved and not settled, by the histories of the lanes in their order.
///
/// It has a line for its columns, `job,counter,place,octets`, and then, in order of the jobs, a line for each message
/// of the packet of a job that is unsettled with a counter: the job, the counter in ten hexadecimal digits, the place
/// of the message from 1, and the octets of the message in hexadecimal. ETSI TS 102 225, 5.1; 3GPP TS 31.115, 4.2;
/// 3GPP TS 23.040, 9.2.3.24.1.
pub fn packet_text(alloc: Global, jobs: &[Job], histories: &[History]) -> Result<String, Memory>
    requires some { 0 < length histories.now }
    requires bodies { All (λ history. All HasBody history.entries) histories.now }
    ensures { IfOk result (λ text. string_bytes text ≡ packets_of jobs.now (map entries_in histories.now)) }
{
    let lanes = lane_indexes(alloc, histories)?;
    let mut text = String::from_str(alloc, packet_header())?;
    let mut packet = PacketBuf::new();
    for job in jobs {
        let lane = index_of(&lanes, job.keyset);
        put_job_lines(&mut text, &mut packet, lane, job.id)?;
    }
    Ok(text)
}

#[tactic(auto, unfolding(crate::specs::Packets::packet_header))]
fn packet_header() -> &'static str
    ensures { result.now ≡ packet_header }
{
    "job,counter,place,octets\n"
}

/// The lines of a job. `packet` is room for its packet.
#[tactic(auto, using(crate::proofs::PacketLemmas::lines_reserved, crate::proofs::PacketLemmas::lines_new))]
fn put_job_lines(
    text: &mut String,
    packet: &mut PacketBuf,
    lane: &LaneIndex<'_>,
    job: JobId,
) -> Result<(), Memory>
    requires { All HasBody lane.now }
    ensures { OnOk result (string_bytes text.new ≡ string_bytes text.old ++ lines_of_job lane.now job) }
{
    match lane.last_reserved(job) {
        None => Ok(()),
        Some(reserved) => {
            let settled = lane.settlement(reserved.place());
            put_if_unsettled(text, packet, lane.book(), job, &reserved, settled)
        }
    }
}

/// The lines of what is reserved, by the entry that settles it.
fn put_if_unsettled(
    text: &mut String,
    packet: &mut PacketBuf,
    lane: &LaneBook<'_>,
    job: JobId,
    reserved: &Reserved<'_>,
    settled: Option<&Entry>,
) -> Result<(), Memory>
    requires some { 1 ≤ length reserved.now.body }
    requires fits { length reserved.now.body ≤ 4096 }
    ensures { OnOk result (string_bytes text.new ≡ string_bytes text.old ++ lines_for lane.now job (settled_by (place_of reserved.now) (option_copied settled.entry)) (Some reserved.now)) }
{
    match settled {
        Some(Entry::Done { .. }) => Ok(()),
        Some(Entry::Refused { .. }) => Ok(()),
        _ => {
            let facts = lane.opened_facts(reserved.keyset);
            put_reserved(text, packet, job, reserved, facts)
        }
    }
}

/// The lines of what is reserved, by the facts that its keyset was opened with.
fn put_reserved(
    text: &mut String,
    packet: &mut PacketBuf,
    job: JobId,
    reserved: &Reserved,
    facts: Option<KeysetFacts>,
) -> Result<(), Memory>
    requires some { 1 ≤ length reserved.now.body }
    requires fits { length reserved.now.body ≤ 4096 }
    ensures { OnOk result (string_bytes text.new ≡ string_bytes text.old ++ lines_of_reserved job reserved.now facts) }
{
    match facts {
        None => Ok(()),
        Some(facts) => {
            build(packet, &facts, reserved);
            let reference = reference_of(reserved);
            put_messages(text, job, reserved.counter, reference, packet.as_slice())
        }
    }
}

/// The scripts that leave under a reference of one octet have at most so many octets.
const SHORT_SCRIPT: usize = 1024;

/// The reference of a packet.
fn reference_of(reserved: &Reserved) -> Reference
    ensures { result ≡ reference_of reserved.now }
{
    let counter = reserved.counter.0;
    if reserved.body.as_slice().len() > SHORT_SCRIPT {
        return Reference::Wide((counter % 65_536) as u16);
    }
    Reference::Short((counter % 256) as u8)
}

/// Leaves the packet of what is reserved in `packet`.
fn build(packet: &mut PacketBuf, facts: &KeysetFacts, reserved: &Reserved)
    requires some { 1 ≤ length reserved.now.body }
    requires fits { length reserved.now.body ≤ 4096 }
    ensures packet { packet.new.items ≡ packet_for facts.now reserved.now }
    ensures some { 1 ≤ length packet.new.items }
{
    let keys = Keys::new(facts.kic.as_slice(), facts.kid.as_slice()).unwrap();
    let spi = Spi {
        ciphered: facts.ciphered,
        mode: facts.mode,
        answer_ciphered: facts.ciphered,
    };
    let body = reserved.body.as_slice();
    build_in(
        &keys,
        reserved.keyset.kvn,
        spi,
        reserved.tar,
        reserved.counter,
        body,
        packet,
    );
}

/// A line for each message of a packet.
fn put_messages(
    text: &mut String,
    job: JobId,
    counter: Counter,
    reference: Reference,
    packet: &[u8],
) -> Result<(), Memory>
    requires some { 1 ≤ length packet.now }
    requires fits { length packet.now ≤ 4128 }
    ensures { OnOk result (string_bytes text.new ≡ string_bytes text.old ++ lines_of_packet job counter reference packet.now) }
{
    for before in 0..pieces_of(packet.len(), is_wide_reference(reference)) {
        put_message(text, job, counter, reference, packet, (before + 1) as u8)?;
    }
    Ok(())
}

/// The element of the user data header that names a command packet (3GPP TS 31.115, 4.2).
const COMMAND_PACKET: u8 = 0x70;

/// The line of the message at a place, from 1.
fn put_message(
    text: &mut String,
    job: JobId,
    counter: Counter,
    reference: Reference,
    packet: &[u8],
    place: u8,
) -> Result<(), Memory>
    requires some { 1 ≤ length packet.now }
    requires fits { length packet.now ≤ 4128 }
    requires from_one { 1 ≤ place }
    requires within { place ≤ pieces_count (length packet.now) (is_wide_reference reference) }
    ensures { OnOk result (string_bytes text.new ≡ string_bytes text.old ++ message_line job counter reference packet.now place) }
{
    put_place(text, job, counter, place)?;
    let message = piece(packet, COMMAND_PACKET, reference, place);
    put_hex(text, message.as_slice())?;
    text.push_str("\n")?;
    Ok(())
}

/// The first three columns: the job, the counter and the place of the message.
fn put_place(text: &mut String, job: JobId, counter: Counter, place: u8) -> Result<(), Memory>
    ensures { OnOk result (string_bytes text.new ≡ string_bytes text.old ++ (decimal job.job ++ codes "," ++ counter_text counter ++ codes "," ++ decimal place ++ codes ",")) }
{
    let number = job.job;
    write!(text, "{number},")?;
    put_counter(text, counter)?;
    write!(text, ",{place},")?;
    Ok(())
}
