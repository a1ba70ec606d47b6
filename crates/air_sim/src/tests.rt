// The octets of packets and messages are those that `scripts/card-vectors` makes with openssl.
use crate::{Act, Cut, Schedule, SimSite};
use disk_model::{DiskCalls, DiskFault, Image, MemDisk};
use ota_core::{
    CardFacts, CardId, Counter, KeyBytes, KeysetFacts, KeysetList, Mode, Reference, Tar,
};
use receiving_entity::Card;
use site_model::{SiteCalls, SiteFault};
use std::alloc::Global;
use std::test::Fail;

const KIC: [u8; 16] = [
    0x00, 0x01, 0x02, 0x03, 0x04, 0x05, 0x06, 0x07, 0x08, 0x09, 0x0A, 0x0B, 0x0C, 0x0D, 0x0E, 0x0F,
];

const KID: [u8; 16] = [
    0x2B, 0x7E, 0x15, 0x16, 0x28, 0xAE, 0xD2, 0xA6, 0xAB, 0xF7, 0x15, 0x88, 0x09, 0xCF, 0x4F, 0x3C,
];

/// Two octets of a transparent file are updated, one after the other.
pub const UPDATES: &str =
    "00381516391212b00010d090f55aa3fd61639721d6919565a84369e608fdb555cf9cdaf499f8eea3deced19d3335aef1f06558947bf5752630c9";

pub const UPDATES_ANSWER: &str =
    "027100002412b0001046bb6a6288fd79e5625808d4f9250c1163a4d4077b1a8579b575ed2f722ba26d";

/// Counter 1, where it is stored.
const LOW: &str = "027100001412b00010524522e28ebe6127fa698560872fbfee";

/// A record is updated, with counters 1 and 2.
const FIRST: &str =
    "00481516391212b000101bd899e12de26c03ba28c4abb4e151765b69ba2871012141be68ee4cff7d3f17f6b357dd2af3280e9e2f5d776b9b0b988577e776b20269fa9fc85bb6992c046d";

const SECOND: &str =
    "00481516391212b0001032653a661163ae214394b8631ffdd863e32ef06fab666f6302d15e7a54f7757677127371ef5308873517a546e0d81a351de394f06aa1796bef22e8f14dfae3f2";

const SECOND_ANSWER: &str =
    "027100002412b0001016ce425f6839429f6a47a13227f8968dea80cbf5c861bb7b832228c5cfe8acc0";

fn facts(alloc: Global, number: u64) -> Result<CardFacts, Fail> {
    let mut keysets = KeysetList::new(alloc);
    let kic = match KeyBytes::new(&KIC) {
        Ok(key) => key,
        Err(_) => return Err("a key has 16 octets")?,
    };
    let kid = match KeyBytes::new(&KID) {
        Ok(key) => key,
        Err(_) => return Err("a key has 16 octets")?,
    };
    let keyset = KeysetFacts {
        base: Counter(0),
        mode: Mode::Higher,
        ciphered: true,
        kic,
        kid,
    };
    keysets.push(1, keyset)?;
    Ok(CardFacts {
        card: CardId(number),
        buffer: 1024,
        rfm: Tar([0xB0, 0x00, 0x10]),
        ram: Tar([0x00, 0x00, 0x00]),
        keysets,
        wide: false,
    })
}

/// A site with card 8901 on this disk.
fn site_on(alloc: Global, disk: MemDisk, schedule: Schedule) -> Result<SimSite<MemDisk>, Fail> {
    let card = match Card::issue(alloc, disk, facts(alloc, 8901)?) {
        Ok(card) => card,
        Err(_) => return Err("the card is not issued")?,
    };
    let mut cards = Vec::new(alloc);
    cards.push(card)?;
    Ok(SimSite::new(alloc, MemDisk::new(alloc), cards, schedule))
}

fn site(alloc: Global, schedule: Schedule) -> Result<SimSite<MemDisk>, Fail> {
    site_on(alloc, MemDisk::new(alloc), schedule)
}

fn listed(alloc: Global, acts: &[Act]) -> Result<Schedule, Fail> {
    Ok(Schedule::Listed(acts.to_vec(alloc)?))
}

/// Hands a packet of one message to the port.
pub fn send<S: SiteCalls>(
    alloc: Global,
    site: &mut S,
    card: u64,
    packet: &str,
) -> Result<(), Fail> {
    let octets = hex::decode(alloc, packet)?;
    match site.send(CardId(card), &octets, Reference::Short(1), 1) {
        Ok(()) => Ok(()),
        Err(_) => Err("the piece is not sent")?,
    }
}

/// What polls give, one after the other, with a blank between two.
pub fn polled<S: SiteCalls>(alloc: Global, site: &mut S, count: usize) -> Result<String, Fail> {
    let mut text = String::new(alloc);
    for _ in 0..count {
        if !text.is_empty() {
            text.push_str(" ")?;
        }
        match site.poll() {
            Ok(Some((_, message))) => text.push_str(&hex::encode(alloc, message.as_slice())?)?,
            Ok(None) => text.push_str("none")?,
            Err(SiteFault::Failed) => text.push_str("failed")?,
            Err(SiteFault::Memory) => text.push_str("memory")?,
        }
    }
    Ok(text)
}

const PASS: Act = Act::Pass;

fn deliver(sent: u64) -> Act {
    Act::Deliver { sent, cut: None }
}

fn cut(sent: u64, call: u32, image: Image) -> Act {
    Act::Deliver {
        sent,
        cut: Some(Cut { call, image }),
    }
}

fn give(made: u64) -> Act {
    Act::Give { made }
}

/// A site that polls in order, with two pieces for its card and one between them for a card that isn't there.
fn with_three_pieces(alloc: Global) -> Result<SimSite<MemDisk>, Fail> {
    let mut site = site(alloc, Schedule::Orderly)?;
    send(alloc, &mut site, 8901, UPDATES)?;
    send(alloc, &mut site, 8902, UPDATES)?;
    send(alloc, &mut site, 8901, SECOND)?;
    Ok(site)
}

#[test]
fn orderly_polls(rt: HostRuntime) -> Result<(), Fail> {
    let alloc = rt.alloc();
    let mut site = with_three_pieces(alloc)?;
    let text = polled(alloc, &mut site, 3)?;
    let want = format!(in alloc; "{UPDATES_ANSWER} {SECOND_ANSWER} none")?;
    assert!(rt; text.as_str() == want.as_str(), "{text}");
    assert_eq!(rt; site.polls(), 3);
    Ok(())
}

#[test]
fn what_was_sent_is_lent(rt: HostRuntime) -> Result<(), Fail> {
    let site = with_three_pieces(rt.alloc())?;
    assert_eq!(rt; site.sent_count(), 3);
    assert!(rt; is_piece(site.sent_at(1), 8902));
    assert!(rt; site.sent_at(3).is_none());
    Ok(())
}

/// Whether this is the first piece of a packet for that card.
fn is_piece(piece: Option<(CardId, &[u8], Reference, u8)>, card: u64) -> bool {
    match piece {
        Some((to, _, _, place)) => to.0 == card && place == 1,
        None => false,
    }
}

/// How many lines the log of the first card has.
fn count_lines(site: &SimSite<MemDisk>) -> usize {
    match site.cards().first() {
        Some(card) => card.log().len(),
        None => 0,
    }
}

fn is_off(site: &SimSite<MemDisk>) -> bool {
    match site.cards().first() {
        Some(card) => card.is_off(),
        None => false,
    }
}

#[test]
fn lost_receipt_then_sent_again(rt: HostRuntime) -> Result<(), Fail> {
    let alloc = rt.alloc();
    let schedule = listed(alloc, &[deliver(0), PASS, PASS, deliver(1), give(1)])?;
    let mut site = site(alloc, schedule)?;
    send(alloc, &mut site, 8901, UPDATES)?;
    assert_eq!(rt; polled(alloc, &mut site, 2)?.as_str(), "none none");
    send(alloc, &mut site, 8901, UPDATES)?;
    let text = polled(alloc, &mut site, 2)?;
    let want = format!(in alloc; "{LOW} none")?;
    assert!(rt; text.as_str() == want.as_str(), "{text}");
    assert_eq!(rt; count_lines(&site), 1);
    Ok(())
}

#[test]
fn reordered_deliveries(rt: HostRuntime) -> Result<(), Fail> {
    let alloc = rt.alloc();
    let acts = [
        PASS,
        deliver(1),
        give(0),
        deliver(0),
        give(1),
        give(0),
        give(7),
    ];
    let mut site = site(alloc, listed(alloc, &acts)?)?;
    send(alloc, &mut site, 8901, FIRST)?;
    send(alloc, &mut site, 8901, SECOND)?;
    let text = polled(alloc, &mut site, 6)?;
    let want = format!(in alloc; "none {SECOND_ANSWER} {LOW} {SECOND_ANSWER} none none")?;
    assert!(rt; text.as_str() == want.as_str(), "{text}");
    Ok(())
}

#[test]
fn listed_port_call_fails(rt: HostRuntime) -> Result<(), Fail> {
    let alloc = rt.alloc();
    let mut site = site(alloc, Schedule::Orderly)?.failing(vec![in alloc; 2, 4]?);
    send(alloc, &mut site, 8901, UPDATES)?;
    assert!(rt; site.send(CardId(8901), &[1], Reference::Short(1), 1) == Err(SiteFault::Failed));
    let text = polled(alloc, &mut site, 3)?;
    let want = format!(in alloc; "{UPDATES_ANSWER} failed none")?;
    assert!(rt; text.as_str() == want.as_str(), "{text}");
    assert_eq!(rt; site.sent_count(), 1);
    assert_eq!(rt; site.polls(), 2);
    Ok(())
}

#[test]
fn each_device_call_cut(rt: HostRuntime) -> Result<(), Fail> {
    let alloc = rt.alloc();
    for image in [Image::Old, Image::New, Image::Torn] {
        for call in 1..17 {
            let acts = [cut(0, call, image), give(0), deliver(0), give(0)];
            let mut site = site(alloc, listed(alloc, &acts)?)?;
            send(alloc, &mut site, 8901, UPDATES)?;
            assert_eq!(rt; polled(alloc, &mut site, 1)?.as_str(), "none");
            assert!(rt; is_off(&site));
            // The card is restarted, and goes by what its disk holds: the counter is stored with the fourth call.
            let stored = call > 4 || (call == 4 && image == Image::New);
            let want = if stored { LOW } else { UPDATES_ANSWER };
            let text = polled(alloc, &mut site, 1)?;
            assert!(rt; text.as_str() == want, "{text}");
            assert_eq!(rt; count_lines(&site), 1);
        }
    }
    Ok(())
}

/// How many commands the first card's last line ran.
fn executed(site: &SimSite<MemDisk>) -> Option<u32> {
    match site.cards().first() {
        Some(card) => card.log().last().map(|line| line.executed),
        None => None,
    }
}

#[test]
fn cut_behind_the_counter_and_behind_two_commands(rt: HostRuntime) -> Result<(), Fail> {
    let alloc = rt.alloc();
    for (call, commands) in [(5, 0), (13, 2)] {
        let acts = [cut(0, call, Image::Old), PASS, deliver(0), give(0)];
        let mut site = site(alloc, listed(alloc, &acts)?)?;
        send(alloc, &mut site, 8901, UPDATES)?;
        let text = polled(alloc, &mut site, 2)?;
        let want = format!(in alloc; "none {LOW}")?;
        assert!(rt; text.as_str() == want.as_str(), "{text}");
        assert_eq!(rt; executed(&site), Some(commands));
    }
    Ok(())
}

/// The length of the journal's disk, through the bound of a site.
fn length<S: SiteCalls>(site: &mut S) -> Result<u64, DiskFault> {
    site.len()
}

/// Cuts the journal's disk to its first octet.
fn cut_to_one<S: SiteCalls>(site: &mut S) -> Result<(), DiskFault> {
    if site.len()? < 1 {
        return Ok(());
    }
    site.cut(1)
}

#[test]
fn calls_of_the_journal(rt: HostRuntime) -> Result<(), Fail> {
    let alloc = rt.alloc();
    let mut site = SimSite::new(
        alloc,
        MemDisk::of(alloc, &[1, 2, 3])?.failing(vec![in alloc; 5]?),
        Vec::<Card<MemDisk>>::new(alloc),
        Schedule::Orderly,
    );
    assert_eq!(rt; site.write_at(3, &[4]), Ok(()));
    assert_eq!(rt; length(&mut site), Ok(4));
    assert_eq!(rt; cut_to_one(&mut site), Ok(()));
    assert_eq!(rt; site.sync(), Err(DiskFault::Failed));
    let site = match site.stop(Image::Old) {
        Ok(site) => site,
        Err(_) => return Err("no memory")?,
    };
    assert_eq!(rt; site.journal().content(), [1, 2, 3].as_slice());
    Ok(())
}
