// Stores on disks in memory: their octets, what they hold, what is refused, and what stands after a stop at each call.
ghost use Rattle.std.specs.Prelude.{◌≡◌, ◌≤◌, true, None, IfOk};

use crate::{CardLine, CardStore, StoreErr};
use disk_model::{DiskCalls, DiskFault, Image, MemDisk};
use ota_core::{
    CardFacts, CardId, Counter, KeyBytes, KeysetFacts, KeysetId, KeysetList, Mode, Tar,
};
use std::alloc::Global;
use std::test::Fail;

/// The TARs of the card for its files and its applets, and one that it hasn't.
const RFM: Tar = Tar([0xB0, 0x00, 0x10]);

const RAM: Tar = Tar([0x00, 0x00, 0x00]);

const OTHER: Tar = Tar([0xB0, 0x00, 0x11]);

/// Selects 6FA1, and writes 11 and 22 into its first two octets. 19 octets, three commands.
const SCRIPT: &[u8] = &[
    0x00, 0xA4, 0x00, 0x00, 0x02, 0x6F, 0xA1, 0x00, 0xD6, 0x00, 0x00, 0x01, 0x11, 0x00, 0xD6, 0x00,
    0x01, 0x01, 0x22,
];

/// The store without parts. 11 octets.
const EMPTY: [u8; 11] = [
    0xA5, 0x4F, 0x54, 0x41, 0x43, 0x01, 0x00, 0x00, 0x00, 0x00, 0x00,
];

/// The same with another end of its head.
const LATER: &[u8] = &[
    0xA5, 0x4F, 0x54, 0x41, 0x43, 0x01, 0x00, 0x00, 0x00, 0x07, 0x00,
];

/// The facts of card 8901 with keyset 1: counter 0, process only if higher, ciphered, two keys of 16 octets.
fn facts(alloc: Global) -> Result<CardFacts, Fail> {
    let kic = KeyBytes::new(&[
        0x00, 0x01, 0x02, 0x03, 0x04, 0x05, 0x06, 0x07, 0x08, 0x09, 0x0A, 0x0B, 0x0C, 0x0D, 0x0E,
        0x0F,
    ])
    .ok()
    .ok_or("a key has 16 octets")?;
    let kid = KeyBytes::new(&[
        0x2B, 0x7E, 0x15, 0x16, 0x28, 0xAE, 0xD2, 0xA6, 0xAB, 0xF7, 0x15, 0x88, 0x09, 0xCF, 0x4F,
        0x3C,
    ])
    .ok()
    .ok_or("a key has 16 octets")?;
    let mut keysets = KeysetList::new(alloc);
    keysets.push(
        1,
        KeysetFacts {
            base: Counter(0),
            mode: Mode::Higher,
            ciphered: true,
            kic,
            kid,
        },
    )?;
    Ok(CardFacts {
        card: CardId(8901),
        buffer: 1024,
        rfm: RFM,
        ram: RAM,
        keysets,
        wide: false,
    })
}

/// The store of that card on this disk.
fn opened(alloc: Global, disk: MemDisk) -> Result<CardStore<MemDisk>, Fail>
    ensures { IfOk result (λ store. store.ready ≡ true) }
{
    let facts = facts(alloc)?;
    match CardStore::open(alloc, disk, &facts) {
        Ok(store) => Ok(store),
        Err(_) => Err(Fail::from("the store opens")),
    }
}

/// The store of that card on a disk of these octets.
fn opened_from(alloc: Global, octets: &[u8]) -> Result<CardStore<MemDisk>, Fail>
    ensures { IfOk result (λ store. store.ready ≡ true) }
{
    match MemDisk::of(alloc, octets) {
        Ok(disk) => opened(alloc, disk),
        Err(_) => Err(Fail::from("memory is wanting")),
    }
}

/// Whether the store of that card on a disk of these octets is refused so.
fn is_refused(alloc: Global, octets: &[u8], want: StoreErr) -> Result<bool, Fail> {
    let facts = facts(alloc)?;
    let disk = match MemDisk::of(alloc, octets) {
        Ok(disk) => disk,
        Err(_) => return Err(Fail::from("memory is wanting")),
    };
    match CardStore::open(alloc, disk, &facts) {
        Ok(_) => Ok(false),
        Err((_, error)) => Ok(error == want),
    }
}

/// Stores a counter that may be stored. The error, where there is one.
fn store(
    store: &mut CardStore<MemDisk>,
    kvn: u8,
    counter: Counter,
    tar: Tar,
    body: &[u8],
) -> Result<Option<StoreErr>, Fail>
    requires { store.old.ready ≡ true }
    ensures { IfOk result (λ error. error ≡ None → store.new.ready ≡ true) }
{
    if body.len() > 34_168 {
        return Err(Fail::from("the script is too long"));
    }
    match store.keyset(kvn) {
        None => Err(Fail::from("the card has the keyset")),
        Some(_) => match store.counter(kvn) {
            None => Err(Fail::from("the keyset has a counter")),
            Some(before) => {
                if before.0 >= counter.0 {
                    return Err(Fail::from("the counter is higher"));
                }
                match store.store_counter(kvn, counter, tar, body) {
                    Ok(()) => Ok(None),
                    Err(error) => Ok(Some(error)),
                }
            }
        },
    }
}

/// More commands than any script here has.
const COMMANDS: usize = 1024;

/// Runs all commands that are left. The error, where there is one.
fn run(store: &mut CardStore<MemDisk>) -> Result<Option<StoreErr>, Fail>
    requires { store.old.ready ≡ true }
    ensures { IfOk result (λ error. error ≡ None → store.new.ready ≡ true) }
{
    for _ in 0..COMMANDS {
        if !store.has_command() {
            return Ok(None);
        }
        if store.length() > 16_777_206 {
            return Err(Fail::from("there is room for a command"));
        }
        match store.do_command() {
            Ok(_) => {}
            Err(error) => return Ok(Some(error)),
        }
    }
    Err(Fail::from("the script ends"))
}

/// Stores a counter with a script, and runs it. The error, where there is one.
fn store_and_run(
    store: &mut CardStore<MemDisk>,
    kvn: u8,
    counter: Counter,
    tar: Tar,
    body: &[u8],
) -> Result<Option<StoreErr>, Fail>
    requires { store.old.ready ≡ true }
    ensures { IfOk result (λ error. error ≡ None → store.new.ready ≡ true) }
{
    match self::store(store, kvn, counter, tar, body)? {
        Some(error) => Ok(Some(error)),
        None => run(store),
    }
}

/// Stores a counter with a script, and runs it.
fn use_up(
    store: &mut CardStore<MemDisk>,
    kvn: u8,
    counter: Counter,
    tar: Tar,
    body: &[u8],
) -> Result<(), Fail>
    requires { store.old.ready ≡ true }
    ensures { IfOk result (λ _. store.new.ready ≡ true) }
{
    match store_and_run(store, kvn, counter, tar, body)? {
        None => Ok(()),
        Some(_) => Err(Fail::from("the counter is stored, and its script run")),
    }
}

/// A line of keyset 1.
fn line(counter: Counter, executed: u32, finished: bool, status: u8) -> CardLine {
    CardLine {
        keyset: KeysetId {
            card: CardId(8901),
            kvn: 1,
        },
        counter,
        executed,
        finished,
        status,
    }
}

/// Whether the first two octets of 6FA1 are these.
fn begins_so(store: &CardStore<MemDisk>, first: u8, second: u8) -> bool {
    match store.state().files().octets_of(&[0x6FA1]) {
        Some([a, b, ..]) => *a == first && *b == second,
        _ => false,
    }
}

/// Octets of a store whose parts these are, each in a batch of its own.
fn log(alloc: Global, parts: &[&[u8]]) -> Result<Vec<u8>, Fail> {
    let mut octets = Vec::from_slice(alloc, &EMPTY[..10])?;
    for part in parts {
        let len = part.len() as u64;
        octets.push(0xA5)?;
        octets.extend_from_slice(&len.wrapping_add(4).to_be_bytes()[4..])?;
        octets.extend_from_slice(&len.to_be_bytes()[4..])?;
        octets.extend_from_slice(part)?;
    }
    octets.push(0x00)?;
    Ok(octets)
}

/// Counter 1 of keyset 1 with the TAR of the files and a SELECT of 6FA1.
const ONE: &[u8] = &[
    0x01, 0x01, 0x00, 0x00, 0x00, 0x00, 0x01, 0xB0, 0x00, 0x10, 0x00, 0xA4, 0x00, 0x00, 0x02, 0x6F,
    0xA1,
];

/// Counter 2 with a TAR that the card hasn't.
const TWO_ELSEWHERE: &[u8] = &[
    0x01, 0x01, 0x00, 0x00, 0x00, 0x00, 0x02, 0xB0, 0x00, 0x11, 0x00, 0xA4, 0x00, 0x00, 0x02, 0x6F,
    0xA1,
];

/// A command was run.
const RUN: &[u8] = &[0x02];

/// How many device calls a counter and the three commands of the script make.
const CALLS: u32 = 16;

/// Whether a card that is cut at this device call, and opened again, is left with what was durable: the counter, or so
/// many commands. Only at the last of the four calls of a part, and only where its write stands, it is.
fn is_left_by_cut(alloc: Global, call: u32, image: Image) -> Result<bool, Fail>
    requires { 1 ≤ call }
{
    let mut store = opened(alloc, MemDisk::new(alloc))?;
    store.arm(call, image);
    match store_and_run(&mut store, 1, Counter(1), RFM, SCRIPT)? {
        Some(StoreErr::DiskFault(DiskFault::Failed)) => {}
        _ => return Ok(false),
    }
    if store.reopen().is_err() {
        return Ok(false);
    }
    let durable = if call % 4 == 0 && image == Image::New {
        (call - 1) / 4 + 1
    } else {
        (call - 1) / 4
    };
    Ok(has_parts(&store, durable))
}

/// Whether the card is that behind so many parts of the script: its counter, and its commands.
fn has_parts(store: &CardStore<MemDisk>, parts: u32) -> bool {
    let want = match parts {
        0 => return store.lines().is_empty() && begins_so(store, 0xFF, 0xFF),
        1 => (line(Counter(1), 0, false, 0x00), 0xFF, 0xFF),
        2 => (line(Counter(1), 1, false, 0x00), 0xFF, 0xFF),
        3 => (line(Counter(1), 2, false, 0x00), 0x11, 0xFF),
        _ => (line(Counter(1), 3, true, 0x00), 0x11, 0x22),
    };
    store.lines() == [want.0].as_slice() && begins_so(store, want.1, want.2)
}

#[test]
fn empty_disk_gets_a_store(rt: HostRuntime) -> Result<(), Fail> {
    let store = opened(rt.alloc(), MemDisk::new(rt.alloc()))?;
    assert!(rt; store.disk().content() == EMPTY.as_slice());
    assert!(rt; store.lines().is_empty());
    assert!(rt; store.counter(1) == Some(Counter(0)));
    assert!(rt; store.counter(2).is_none());
    assert!(rt; store.keyset(2).is_none());
    assert_eq!(rt; store.length(), 11);
    Ok(())
}

#[test]
fn cut_leaves_the_card_between_two_commands(rt: HostRuntime) -> Result<(), Fail> {
    for call in 1..=CALLS {
        for image in [Image::Old, Image::New, Image::Torn] {
            let left = is_left_by_cut(rt.alloc(), call, image)?;
            assert!(rt; left, "call {call}");
        }
    }
    Ok(())
}

#[test]
fn first_bad_part_is_named(rt: HostRuntime) -> Result<(), Fail> {
    let cases: [(&[&[u8]], u64); 12] = [
        (&[&[0x09]], 1),
        (&[&[0x02, 0x00]], 1),
        (&[&ONE[..9]], 1),
        (
            &[&[0x03, 0x01, 0x00, 0x00, 0x00, 0x00, 0x01, 0xB0, 0x00, 0x10]],
            1,
        ),
        (
            &[&[0x01, 0x02, 0x00, 0x00, 0x00, 0x00, 0x01, 0xB0, 0x00, 0x10]],
            1,
        ),
        (
            &[&[0x01, 0x01, 0x00, 0x00, 0x00, 0x00, 0x00, 0xB0, 0x00, 0x10]],
            1,
        ),
        (&[RUN], 1),
        (&[ONE, ONE], 2),
        (&[TWO_ELSEWHERE, ONE], 2),
        (&[TWO_ELSEWHERE, RUN], 2),
        (&[ONE, RUN, RUN], 3),
        (&[ONE, TWO_ELSEWHERE, RUN, &[0x09]], 3),
    ];
    for (parts, number) in cases {
        let octets = log(rt.alloc(), parts)?;
        let refused = is_refused(rt.alloc(), &octets, StoreErr::Damaged(number))?;
        assert!(rt; refused, "part {number}");
    }
    Ok(())
}

#[test]
fn damaged_batch_comes_behind_the_parts(rt: HostRuntime) -> Result<(), Fail> {
    let mut octets = log(rt.alloc(), &[ONE, RUN])?;
    let _ = octets.pop();
    octets.extend_from_slice(&[0xA5, 0x00, 0x00, 0x00, 0x63])?;
    let refused = is_refused(rt.alloc(), &octets, StoreErr::Damaged(3))?;
    assert!(rt; refused);
    let mut octets = log(rt.alloc(), &[ONE, ONE])?;
    let _ = octets.pop();
    octets.extend_from_slice(&[0xA5, 0x00, 0x00, 0x00, 0x63])?;
    let refused = is_refused(rt.alloc(), &octets, StoreErr::Damaged(2))?;
    assert!(rt; refused);
    Ok(())
}

#[test]
fn other_octets_are_no_store(rt: HostRuntime) -> Result<(), Fail> {
    let refused = is_refused(rt.alloc(), b"otherwise used", StoreErr::NotALog)?;
    assert!(rt; refused);
    let refused = is_refused(rt.alloc(), LATER, StoreErr::OtherHead([0, 0, 0, 7]))?;
    assert!(rt; refused);
    Ok(())
}

/// The greatest length of a store.
const LIMIT: usize = 16_777_216;

/// What a counter with a SELECT needs: 19 octets, the 7 of its script, and 10 for its command.
const NEED: usize = 36;

/// The octets of a store that has so many fewer than the greatest length, with one counter and a script of FF.
fn long_store(alloc: Global, short: usize) -> Result<Vec<u8>, Fail>
    requires { short ≤ 100 }
{
    let mut part = vec![in alloc; 0xFF; LIMIT - 20 - short]?;
    part[..10].copy_from_slice(&ONE[..10]);
    let parts: [&[u8]; 1] = [&part];
    log(alloc, &parts)
}

/// What a store that has so many fewer octets than the greatest length answers to a counter with a SELECT, and how many
/// device calls that makes.
fn told_by(alloc: Global, short: usize, tar: Tar) -> Result<(Option<StoreErr>, usize), Fail>
    requires { short ≤ 100 }
{
    let octets = long_store(alloc, short)?;
    let mut store = opened_from(alloc, &octets)?;
    let before = store.disk().calls().len();
    let error = store_and_run(&mut store, 1, Counter(2), tar, &SCRIPT[..7])?;
    Ok((error, store.disk().calls().len().wrapping_sub(before)))
}

#[test]
fn full_store_is_told_before_a_write(rt: HostRuntime) -> Result<(), Fail> {
    let told = told_by(rt.alloc(), NEED - 1, OTHER)?;
    let want = StoreErr::Full {
        length: (LIMIT - NEED + 1) as u64,
        need: NEED as u64,
    };
    assert!(rt; told.0 == Some(want));
    assert_eq!(rt; told.1, 0);
    Ok(())
}

#[test]
fn store_takes_what_fits_exactly(rt: HostRuntime) -> Result<(), Fail> {
    let told = told_by(rt.alloc(), NEED, RFM)?;
    assert!(rt; told.0.is_none());
    assert_eq!(rt; told.1, 8);
    Ok(())
}

/// Whether the octets of a store's disk are those of these parts, and as many as its log.
fn holds(alloc: Global, store: &CardStore<MemDisk>, parts: &[&[u8]]) -> Result<bool, Fail> {
    let octets = log(alloc, parts)?;
    Ok(store.disk().content() == octets.as_slice() && store.length() == octets.len() as u64)
}

/// Whether the lines of a store are these.
fn has_lines(store: &CardStore<MemDisk>, lines: &[CardLine]) -> bool {
    store.lines() == lines
}

/// Whether a counter is the one that is stored.
fn has_counter(store: &CardStore<MemDisk>, kvn: u8, counter: Counter) -> bool {
    store.counter(kvn) == Some(counter)
}

/// Whether a store opens again.
fn reopens(store: &mut CardStore<MemDisk>) -> bool {
    store.reopen().is_ok()
}

#[test]
fn parts_stand_in_batches_of_their_own(rt: HostRuntime) -> Result<(), Fail> {
    let mut store = opened(rt.alloc(), MemDisk::new(rt.alloc()))?;
    use_up(&mut store, 1, Counter(1), RFM, &SCRIPT[..7])?;
    let held = holds(rt.alloc(), &store, &[ONE, RUN])?;
    assert!(rt; held);
    // Of a script that isn't run the counter alone is stored.
    use_up(&mut store, 1, Counter(2), OTHER, &SCRIPT[..7])?;
    let held = holds(rt.alloc(), &store, &[ONE, RUN, TWO_ELSEWHERE])?;
    assert!(rt; held);
    Ok(())
}

/// Puts keyset 2: it takes the next counter alone and isn't ciphered. GlobalPlatform Card Specification 2.1.1, 9.8; the
/// data are this product's own.
const PUT_KEY: &[u8] = &[
    0x80, 0xD8, 0x00, 0x02, 0x24, 0x03, 0x00, 0x10, 0x10, 0x11, 0x12, 0x13, 0x14, 0x15, 0x16, 0x17,
    0x18, 0x19, 0x1A, 0x1B, 0x1C, 0x1D, 0x1E, 0x1F, 0x10, 0x20, 0x21, 0x22, 0x23, 0x24, 0x25, 0x26,
    0x27, 0x28, 0x29, 0x2A, 0x2B, 0x2C, 0x2D, 0x2E, 0x2F,
];

/// Whether these are the facts of the keyset that was put.
fn is_put(facts: &KeysetFacts) -> bool {
    facts.base == Counter(0)
        && facts.mode == Mode::Next
        && !facts.ciphered
        && facts.kic.as_slice() == &PUT_KEY[8..24]
        && facts.kid.as_slice() == &PUT_KEY[25..]
}

/// Whether a store has the keyset that was put.
fn has_put(store: &CardStore<MemDisk>) -> bool {
    match store.keyset(2) {
        Some(facts) => is_put(facts),
        None => false,
    }
}

/// Whether a store has the keyset that was put, the counters of both keysets, and what the script wrote.
fn has_both(store: &CardStore<MemDisk>) -> bool {
    has_put(store)
        && has_counter(store, 1, Counter(1))
        && has_counter(store, 2, Counter(5))
        && begins_so(store, 0x11, 0x22)
}

#[test]
fn keyset_that_was_put_counts_from_0(rt: HostRuntime) -> Result<(), Fail> {
    let mut store = opened(rt.alloc(), MemDisk::new(rt.alloc()))?;
    use_up(&mut store, 1, Counter(1), RAM, PUT_KEY)?;
    assert!(rt; has_put(&store));
    assert!(rt; has_counter(&store, 2, Counter(0)));
    use_up(&mut store, 2, Counter(5), RFM, SCRIPT)?;
    assert!(rt; has_both(&store));
    assert!(rt; reopens(&mut store));
    assert!(rt; has_both(&store));
    Ok(())
}

/// Selects 6FA2, which isn't there, and then 6FA1.
const REFUSED: &[u8] = &[
    0x00, 0xA4, 0x00, 0x00, 0x02, 0x6F, 0xA2, 0x00, 0xA4, 0x00, 0x00, 0x02, 0x6F, 0xA1,
];

#[test]
fn rest_that_is_no_command_ends_a_script(rt: HostRuntime) -> Result<(), Fail> {
    // The third command has lost its octet of data.
    let mut store = opened(rt.alloc(), MemDisk::new(rt.alloc()))?;
    use_up(&mut store, 1, Counter(1), RFM, &SCRIPT[..18])?;
    assert!(rt; has_lines(&store, &[line(Counter(1), 3, true, 0x00)]));
    assert!(rt; begins_so(&store, 0x11, 0xFF));
    // A command that is refused ends it, too.
    use_up(&mut store, 1, Counter(2), RFM, REFUSED)?;
    let lines = [
        line(Counter(1), 3, true, 0x00),
        line(Counter(2), 1, true, 0x00),
    ];
    assert!(rt; has_lines(&store, &lines));
    Ok(())
}

/// 585 times the MF is selected, and a last octet is no command: 4,096 octets.
fn longest_script(alloc: Global) -> Result<Vec<u8>, Fail> {
    let mut body = Vec::new(alloc);
    for _ in 0..SELECTS {
        body.extend_from_slice(&[0x00, 0xA4, 0x00, 0x00, 0x02, 0x3F, 0x00])?;
    }
    body.push(0x00)?;
    Ok(body)
}

const SELECTS: usize = 585;

/// The store of that card, with another buffer, on an empty disk.
fn opened_with(alloc: Global, buffer: u32) -> Result<CardStore<MemDisk>, Fail>
    ensures { IfOk result (λ store. store.ready ≡ true) }
{
    let mut facts = facts(alloc)?;
    facts.buffer = buffer;
    match CardStore::open(alloc, MemDisk::new(alloc), &facts) {
        Ok(store) => Ok(store),
        Err(_) => Err(Fail::from("the store opens")),
    }
}

/// Whether the line of the longest script on a card with this buffer is this one, also when the store is opened again.
fn leaves_line(alloc: Global, buffer: u32, want: CardLine) -> Result<bool, Fail> {
    let mut store = opened_with(alloc, buffer)?;
    let body = longest_script(alloc)?;
    use_up(&mut store, 1, Counter(1), RFM, &body)?;
    Ok(has_lines(&store, &[want]) && reopens(&mut store) && has_lines(&store, &[want]))
}

#[test]
fn longest_script_is_run_where_the_buffer_holds_it(rt: HostRuntime) -> Result<(), Fail> {
    let run = leaves_line(rt.alloc(), 4096, line(Counter(1), 586, true, 0x00))?;
    assert!(rt; run);
    let unrun = leaves_line(rt.alloc(), 4095, line(Counter(1), 0, true, 0x07))?;
    assert!(rt; unrun);
    Ok(())
}
