// What a bare site keeps of its calls, and the messages that it gives.
use super::BareSite;
use crate::moments::Moment;
use crate::{Departure, SiteCalls, SiteFault};
use arrayvec::ArrayVec;
use disk_model::{DiskCalls, MemDisk};
use ota_core::{CardId, Reference};
use std::test::Fail;

// The places at the borders: 132 octets and 134 are two pieces under a reference of one octet, and 131 and 133 under one
// of two octets.
fn send_pieces<S: SiteCalls>(site: &mut S) -> Result<(), SiteFault> {
    site.send(CardId(8901), &[7; 137], Reference::Wide(0x1234), 1)?;
    site.send(CardId(8902), &[8; 266], Reference::Short(0x34), 2)?;
    site.send(CardId(8901), &[9; 267], Reference::Short(0x35), 3)?;
    site.send(CardId(8902), &[10; 264], Reference::Wide(0x1235), 2)?;
    site.send(CardId(8901), &[11; 265], Reference::Wide(0x1236), 3)
}

fn kept<D>(site: &BareSite<D>, number: usize) -> Option<&Departure> {
    match site.moments.get(number) {
        Some(Moment::Sent(departure)) => Some(departure),
        _ => None,
    }
}

#[test]
fn a_bare_site_keeps_each_piece_with_its_place(rt: HostRuntime) -> Result<(), Fail> {
    let alloc = rt.alloc();
    let mut site = BareSite::new(alloc, MemDisk::new(alloc));
    assert_eq!(rt; send_pieces(&mut site), Ok(()));
    let sent = [
        (8901, 7, 137, Reference::Wide(0x1234), 1),
        (8902, 8, 266, Reference::Short(0x34), 2),
        (8901, 9, 267, Reference::Short(0x35), 3),
        (8902, 10, 264, Reference::Wide(0x1235), 2),
        (8901, 11, 265, Reference::Wide(0x1236), 3),
    ];
    assert_eq!(rt; site.moments.len(), sent.len());
    for (number, (card, octet, len, reference, place)) in sent.into_iter().enumerate() {
        let packet = vec![in alloc; octet; len]?;
        match kept(&site, number) {
            Some(departure) => {
                assert_eq!(rt; departure.card, CardId(card));
                assert_eq!(rt; departure.packet.as_slice(), packet.as_slice());
                assert_eq!(rt; departure.reference, reference);
                assert_eq!(rt; departure.place, place);
            }
            None => return Err(Fail::from("no piece")),
        }
    }
    Ok(())
}

fn message(octets: &[u8]) -> ArrayVec<u8, 140> {
    let mut message = ArrayVec::new();
    for octet in octets.iter() {
        let _ = message.try_push(*octet);
    }
    message
}

// Whether the next poll gives this message.
fn gives<S: SiteCalls>(site: &mut S, card: u64, octets: &[u8]) -> Result<bool, SiteFault> {
    match site.poll()? {
        Some((of, message)) => Ok(of == CardId(card) && message.as_slice() == octets),
        None => Ok(false),
    }
}

#[test]
fn a_bare_site_gives_its_messages_in_order(rt: HostRuntime) -> Result<(), Fail> {
    let alloc = rt.alloc();
    let messages = vec![in alloc;
        (CardId(8902), message(&[1, 2])),
        (CardId(8901), message(&[3])),
    ]?;
    let mut site = BareSite::new(alloc, MemDisk::new(alloc)).giving(messages);
    assert_eq!(rt; gives(&mut site, 8902, &[1, 2]), Ok(true));
    assert_eq!(rt; site.sync(), Ok(()));
    assert_eq!(rt; gives(&mut site, 8901, &[3]), Ok(true));
    assert_eq!(rt; site.empty_polls, 0);
    for count in [1, 2] {
        assert!(rt; site.poll().is_ok_and(|message| message.is_none()));
        assert_eq!(rt; site.empty_polls, count);
    }
    assert_eq!(rt; site.moments.len(), 5);
    Ok(())
}
