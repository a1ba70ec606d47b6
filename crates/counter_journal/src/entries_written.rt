//! The octets of an entry in the second version.

ghost use Rattle.std.specs.Prelude.{◌≡◌, ◌+◌, ◌^◌, ◌<◌, ◌≤◌, ℕ, IsTrue, [], ◌∷◌, ◌++◌, length};
ghost use Rattle.gate_log.specs.Log.{four};
ghost use Rattle.ota_core.specs.KeyBytes.{is_key_length};
ghost use Rattle.counter_journal.specs.declared.versions.Version.TheVariants.{Second};
ghost use Rattle.counter_journal.specs.EntryOctets.{five, eight, name_octets, front_octets, facts_octets, key_octets, mode_octet, job_octets, entry_octets};
ghost use Rattle.counter_journal.specs.EntryRanges.{IsFront, IsEntry, IsSized, LONGEST_BODY, LONGEST_NAME, LONGEST_ENTRY};

use arrayvec::ArrayVec;
use ota_core::{Counter, Entry, JobId, KeyBytes, KeysetFacts, KeysetId, Mode, Tar};

/// The octets of one entry. The longest is a reservation of a script of 4,096 octets with a name of 32.
pub type EntryBuf = ArrayVec<u8, 4167>;

/// Writes the entry, and nothing else.
pub fn write_entry(entry: &Entry, out: &mut EntryBuf)
    requires { IsSized entry.now }
    ensures octets { out.new.items ≡ entry_octets Second entry.now }
    ensures short { length out.new.items ≤ LONGEST_ENTRY }
    ensures fits { IsEntry entry.now }
{
    out.clear();
    match entry {
        Entry::Open {
            by,
            moment,
            keyset,
            facts,
        } => put_open(out, *by, *moment, keyset, facts),
        Entry::Reserve {
            by,
            moment,
            keyset,
            counter,
            job,
            tar,
            name,
            body,
        } => {
            put_front(out, 0x02, *by, *moment, keyset);
            put_purpose(out, *counter, *job, tar);
            put_name(out, name.as_slice());
            put(out, body.as_slice());
        }
        Entry::Done {
            by,
            moment,
            keyset,
            counter,
            answer,
        } => put_settlement(out, 0x03, *by, *moment, keyset, *counter, answer.as_slice()),
        Entry::Refused {
            by,
            moment,
            keyset,
            counter,
            status,
        } => put_settlement(out, 0x04, *by, *moment, keyset, *counter, &[*status]),
        Entry::Close { by, moment, keyset } => put_front(out, 0x05, *by, *moment, keyset),
    }
}

fn put(out: &mut EntryBuf, octets: &[u8])
    requires { length out.old.items + length octets.now ≤ LONGEST_ENTRY }
    ensures octets { out.new.items ≡ out.old.items ++ octets.now }
    ensures len { length out.new.items ≡ length out.old.items + length octets.now }
{
    let _ = out.try_extend_from_slice(octets);
}

#[tactic(auto, unfolding(gate_log::specs::Log::four))]
fn put_four(out: &mut EntryBuf, number: u32)
    requires { length out.old.items + 4 ≤ LONGEST_ENTRY }
    ensures octets { out.new.items ≡ out.old.items ++ four number }
    ensures len { length out.new.items ≡ length out.old.items + 4 }
{
    put(out, &number.to_be_bytes());
}

#[tactic(auto, unfolding(crate::specs::EntryOctets::five))]
fn put_counter(out: &mut EntryBuf, counter: Counter)
    requires { length out.old.items + 5 ≤ LONGEST_ENTRY }
    ensures octets { out.new.items ≡ out.old.items ++ five counter }
    ensures len { length out.new.items ≡ length out.old.items + 5 }
    ensures below { counter < 2 ^ 40 }
{
    put(out, &counter.0.to_be_bytes()[3..]);
}

#[tactic(auto, unfolding(crate::specs::EntryOctets::eight))]
fn put_eight(out: &mut EntryBuf, number: u64)
    requires { length out.old.items + 8 ≤ LONGEST_ENTRY }
    ensures octets { out.new.items ≡ out.old.items ++ eight number }
    ensures len { length out.new.items ≡ length out.old.items + 8 }
{
    put(out, &number.to_be_bytes());
}

fn put_front(out: &mut EntryBuf, kind: u8, by: u32, moment: u64, keyset: &KeysetId)
    requires { length out.old.items + 22 ≤ LONGEST_ENTRY }
    ensures octets { out.new.items ≡ out.old.items ++ front_octets Second kind by moment keyset.now }
    ensures len { length out.new.items ≡ length out.old.items + 22 }
    ensures fits { IsFront by moment keyset.now }
{
    put(out, &[kind]);
    put_four(out, by);
    put_eight(out, keyset.card.0);
    put(out, &[keyset.kvn]);
    put_eight(out, moment);
}

fn mode_octet(mode: Mode) -> u8
    ensures { result ≡ mode_octet mode }
{
    match mode {
        Mode::Higher => 0x02,
        Mode::Next => 0x03,
    }
}

/// A key behind its length.
fn put_key(out: &mut EntryBuf, key: &KeyBytes)
    requires { length out.old.items + 33 ≤ LONGEST_ENTRY }
    ensures octets { out.new.items ≡ out.old.items ++ key_octets key.now }
    ensures len { length out.new.items ≤ length out.old.items + 33 }
    ensures fits { IsTrue (is_key_length (length key.now)) }
{
    let key = key.as_slice();
    put(out, &[key.len() as u8]);
    put(out, key);
}

fn put_facts(out: &mut EntryBuf, facts: &KeysetFacts)
    requires { length out.old.items + 73 ≤ LONGEST_ENTRY }
    ensures octets { out.new.items ≡ out.old.items ++ facts_octets facts.now }
    ensures len { length out.new.items ≤ length out.old.items + 73 }
    ensures base { facts.now.base < 2 ^ 40 }
    ensures kic { IsTrue (is_key_length (length facts.now.kic)) }
    ensures kid { IsTrue (is_key_length (length facts.now.kid)) }
{
    put_counter(out, facts.base);
    put(out, &[mode_octet(facts.mode), u8::from(facts.ciphered)]);
    put_key(out, &facts.kic);
    put_key(out, &facts.kid);
}

fn put_job(out: &mut EntryBuf, job: JobId)
    requires { length out.old.items + 8 ≤ LONGEST_ENTRY }
    ensures octets { out.new.items ≡ out.old.items ++ job_octets job }
    ensures len { length out.new.items ≡ length out.old.items + 8 }
    ensures campaign { job.campaign < 2 ^ 32 }
    ensures job { job.job < 2 ^ 32 }
{
    put_four(out, job.campaign);
    put_four(out, job.job);
}

/// The name of a campaign behind its length.
fn put_name(out: &mut EntryBuf, name: &[u8])
    requires short { length name.now ≤ LONGEST_NAME }
    requires room { length out.old.items + 33 ≤ LONGEST_ENTRY }
    ensures octets { out.new.items ≡ out.old.items ++ name_octets Second name.now }
    ensures len { length out.new.items ≡ length out.old.items + 1 + length name.now }
{
    put(out, &[name.len() as u8]);
    put(out, name);
}

fn put_open(out: &mut EntryBuf, by: u32, moment: u64, keyset: &KeysetId, facts: &KeysetFacts)
    requires { length out.old.items + 95 ≤ LONGEST_ENTRY }
    ensures octets { out.new.items ≡ out.old.items ++ (front_octets Second 0x01 by moment keyset.now ++ facts_octets facts.now) }
    ensures len { length out.new.items ≤ length out.old.items + 95 }
    ensures front { IsFront by moment keyset.now }
    ensures base { facts.now.base < 2 ^ 40 }
    ensures kic { IsTrue (is_key_length (length facts.now.kic)) }
    ensures kid { IsTrue (is_key_length (length facts.now.kid)) }
{
    put_front(out, 0x01, by, moment, keyset);
    put_facts(out, facts);
}

/// What a reservation is made for: a counter, a job and its application.
fn put_purpose(out: &mut EntryBuf, counter: Counter, job: JobId, tar: &Tar)
    requires { length out.old.items + 16 ≤ LONGEST_ENTRY }
    ensures octets { out.new.items ≡ out.old.items ++ (five counter ++ job_octets job ++ tar.now) }
    ensures len { length out.new.items ≡ length out.old.items + 16 }
    ensures counter { counter < 2 ^ 40 }
    ensures campaign { job.campaign < 2 ^ 32 }
    ensures job { job.job < 2 ^ 32 }
    ensures tar { length tar.now ≡ 3 }
{
    put_counter(out, counter);
    put_job(out, job);
    put(out, &tar.0);
}

/// A settlement: an answer or a status behind the counter.
fn put_settlement(
    out: &mut EntryBuf,
    kind: u8,
    by: u32,
    moment: u64,
    keyset: &KeysetId,
    counter: Counter,
    settled: &[u8],
)
    requires { length out.old.items + 27 + length settled.now ≤ LONGEST_ENTRY }
    ensures octets { out.new.items ≡ out.old.items ++ (front_octets Second kind by moment keyset.now ++ five counter ++ settled.now) }
    ensures len { length out.new.items ≡ length out.old.items + 27 + length settled.now }
    ensures front { IsFront by moment keyset.now }
    ensures counter { counter < 2 ^ 40 }
{
    put_front(out, kind, by, moment, keyset);
    put_counter(out, counter);
    put(out, settled);
}
