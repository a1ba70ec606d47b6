use crate::{Assembler, Push, is_wide, piece, pieces_of};
use arrayvec::ArrayVec;
use ota_core::{CardId, Reference};
use std::alloc::Global;
use std::process::Abort;
use std::test::Fail;

const COMMAND: u8 = 0x70;

const RESPONSE: u8 = 0x71;

const CARD: CardId = CardId(8901);

/// A packet of so many octets, each place with one of its own.
fn packet(alloc: Global, len: usize) -> Result<Vec<u8>, Fail> {
    let mut octets = Vec::new(alloc);
    for i in 0..len {
        octets.push((i % 251) as u8)?;
    }
    Ok(octets)
}

/// The message at a place of a packet, where there is one.
fn message(
    packet: &[u8],
    element: u8,
    reference: Reference,
    place: u8,
) -> Option<ArrayVec<u8, 140>> {
    let (wide, longest) = match reference {
        Reference::Short(_) => (false, 34_168),
        Reference::Wide(_) => (true, 33_913),
    };
    if packet.is_empty() || packet.len() > longest || place == 0 {
        return None;
    }
    if u32::from(place) > pieces_of(packet.len(), wide) {
        return None;
    }
    if element != 0x70 && element != 0x71 {
        return None;
    }
    Some(piece(packet, element, reference, place))
}

/// What a push says in one word, and the packet.
fn told(push: &Push) -> (&'static str, &[u8]) {
    match push {
        Push::Whole(packet) => ("whole", packet.as_slice()),
        Push::More => ("more", &[]),
        Push::NotOurs => ("not ours", &[]),
    }
}

/// Pushes the message at a place of a packet, and compares what is told.
fn pushes(
    rt: &impl Abort,
    assembler: &mut Assembler,
    card: CardId,
    packet: &[u8],
    reference: Reference,
    place: u8,
    want: &str,
) -> Result<(), Fail> {
    let message = message(packet, COMMAND, reference, place).ok_or("no such place")?;
    let push = assembler.push(card, message.as_slice())?;
    let (word, octets) = told(&push);
    assert_eq!(rt; word, want, "place {place}");
    if word == "whole" {
        assert!(rt; octets == packet, "place {place}");
    }
    Ok(())
}

#[test]
fn packets_are_cut_to_fill_each_message(rt: HostRuntime) -> Result<(), Fail> {
    let one = Reference::Short(1);
    let wide = Reference::Wide(1);
    // The packets of scripts of 22, 98, 99, 1,024, 1,025 and 4,096 octets, and each edge of both kinds.
    let cases: [(Reference, usize, u32, u8, usize); 24] = [
        (one, 1, 1, 1, 4),
        (one, 58, 1, 1, 61),
        (one, 122, 1, 1, 125),
        (one, 137, 1, 1, 140),
        (one, 138, 2, 1, 140),
        (one, 138, 2, 2, 12),
        (one, 266, 2, 2, 140),
        (one, 267, 3, 3, 7),
        (one, 1050, 8, 1, 140),
        (one, 1050, 8, 7, 140),
        (one, 1050, 8, 8, 120),
        (one, 34_034, 254, 254, 140),
        (one, 34_035, 255, 255, 7),
        (one, 34_168, 255, 255, 140),
        (wide, 137, 1, 1, 140),
        (wide, 138, 2, 1, 140),
        (wide, 138, 2, 2, 14),
        (wide, 264, 2, 2, 140),
        (wide, 265, 3, 3, 8),
        (wide, 1050, 8, 7, 140),
        (wide, 1050, 8, 8, 128),
        (wide, 4122, 32, 31, 140),
        (wide, 4122, 32, 32, 8),
        (wide, 33_913, 255, 255, 140),
    ];
    for (reference, len, pieces, place, message_len) in cases {
        let packet = packet(rt.alloc(), len)?;
        let message = message(&packet, COMMAND, reference, place).ok_or("no such place")?;
        assert_eq!(rt; message.len(), message_len, "{len}, {place}");
        let last = u8::try_from(pieces)?;
        let next = last.checked_add(1);
        assert!(rt;
            crate::tests::message(&packet, COMMAND, reference, last).is_some(),
            "{len}"
        );
        if let Some(next) = next {
            assert!(rt;
                crate::tests::message(&packet, COMMAND, reference, next).is_none(),
                "{len}"
            );
        }
    }
    Ok(())
}

#[test]
fn headers_are_written(rt: HostRuntime) -> Result<(), Fail> {
    let one = packet(rt.alloc(), 58)?;
    let two = packet(rt.alloc(), 138)?;
    let long = packet(rt.alloc(), 1050)?;
    let short = Reference::Short(1);
    let wide = Reference::Wide(1);
    let cases: [(&[u8], u8, Reference, u8, &[u8]); 9] = [
        (&one, COMMAND, short, 1, &[0x02, 0x70, 0x00, 0x00, 0x01]),
        (&one, RESPONSE, wide, 1, &[0x02, 0x71, 0x00, 0x00, 0x01]),
        (
            &two,
            COMMAND,
            short,
            1,
            &[0x07, 0x00, 0x03, 0x01, 0x02, 0x01, 0x70, 0x00, 0x00, 0x01],
        ),
        (
            &two,
            COMMAND,
            short,
            2,
            &[0x05, 0x00, 0x03, 0x01, 0x02, 0x02, 0x84, 0x85],
        ),
        (
            &two,
            RESPONSE,
            short,
            1,
            &[0x07, 0x00, 0x03, 0x01, 0x02, 0x01, 0x71, 0x00, 0x00, 0x01],
        ),
        // The packet of a script of 1,025 octets on a card that takes wide references.
        (
            &long,
            COMMAND,
            wide,
            1,
            &[
                0x08, 0x08, 0x04, 0x00, 0x01, 0x08, 0x01, 0x70, 0x00, 0x00, 0x01,
            ],
        ),
        (
            &long,
            COMMAND,
            wide,
            2,
            &[0x06, 0x08, 0x04, 0x00, 0x01, 0x08, 0x02, 0x83, 0x84],
        ),
        (
            &two,
            RESPONSE,
            Reference::Wide(0x1234),
            1,
            &[
                0x08, 0x08, 0x04, 0x12, 0x34, 0x02, 0x01, 0x71, 0x00, 0x00, 0x01,
            ],
        ),
        (
            &two,
            COMMAND,
            Reference::Wide(0xFFFF),
            2,
            &[0x06, 0x08, 0x04, 0xFF, 0xFF, 0x02, 0x02, 0x83, 0x84],
        ),
    ];
    for (packet, element, reference, place, front) in cases {
        let message = message(packet, element, reference, place).ok_or("no such place")?;
        assert!(rt; message.as_slice().starts_with(front), "{front:?}");
    }
    Ok(())
}

#[test]
fn last_place_makes_a_packet_whole(rt: HostRuntime) -> Result<(), Fail> {
    let packet = packet(rt.alloc(), 138)?;
    let one = Reference::Short(1);
    let mut assembler = Assembler::new(rt.alloc(), COMMAND);
    for (place, want) in [(2, "more"), (1, "whole"), (2, "more")] {
        pushes(&rt, &mut assembler, CARD, &packet, one, place, want)?;
    }
    Ok(())
}

#[test]
fn any_order_and_repeats(rt: HostRuntime) -> Result<(), Fail> {
    let packet = packet(rt.alloc(), 300)?;
    // Four orders, one after the other.
    let places = [1, 1, 2, 2, 3, 3, 2, 3, 2, 1, 2, 3, 3, 3, 1, 1, 3, 1, 3, 2];
    for reference in [Reference::Short(7), Reference::Wide(7)] {
        let mut assembler = Assembler::new(rt.alloc(), COMMAND);
        for (i, place) in places.iter().enumerate() {
            let want = if i % 5 == 4 { "whole" } else { "more" };
            pushes(&rt, &mut assembler, CARD, &packet, reference, *place, want)?;
        }
    }
    Ok(())
}

#[test]
fn packets_do_not_mix(rt: HostRuntime) -> Result<(), Fail> {
    let one = Reference::Short(1);
    let two = Reference::Short(2);
    let wide = Reference::Wide(1);
    // Of two messages, of three, and of one: another card, another reference, one of the other kind with the same
    // number, and another total.
    let cases: [(u64, usize, Reference, u8, &str); 14] = [
        (8901, 138, one, 1, "more"),
        (8902, 138, one, 2, "more"),
        (8901, 138, two, 2, "more"),
        (8901, 138, wide, 2, "more"),
        (8901, 138, Reference::Wide(0x0101), 2, "more"),
        (8901, 300, one, 2, "more"),
        (8901, 58, one, 1, "whole"),
        (8901, 138, one, 2, "whole"),
        (8902, 138, one, 1, "whole"),
        (8901, 138, two, 1, "whole"),
        (8901, 138, wide, 1, "whole"),
        (8901, 300, one, 1, "more"),
        (8901, 300, one, 3, "whole"),
        (8901, 138, Reference::Wide(0x0101), 1, "whole"),
    ];
    let mut assembler = Assembler::new(rt.alloc(), COMMAND);
    for (card, len, reference, place, want) in cases {
        let packet = packet(rt.alloc(), len)?;
        let card = CardId(card);
        pushes(&rt, &mut assembler, card, &packet, reference, place, want)?;
    }
    Ok(())
}

#[test]
fn command_is_none_of_a_card_s_answers(rt: HostRuntime) -> Result<(), Fail> {
    let packet = packet(rt.alloc(), 58)?;
    let message = message(&packet, COMMAND, Reference::Short(1), 1).ok_or("no such place")?;
    let mut answers = Assembler::new(rt.alloc(), RESPONSE);
    let push = answers.push(CARD, message.as_slice())?;
    assert_eq!(rt; told(&push).0, "not ours");
    // Whole by itself for another card, too.
    let mut commands = Assembler::new(rt.alloc(), COMMAND);
    for card in [CARD, CardId(8902)] {
        let push = commands.push(card, message.as_slice())?;
        let (word, octets) = told(&push);
        assert_eq!(rt; word, "whole");
        assert!(rt; octets == packet.as_slice());
    }
    Ok(())
}

#[test]
fn wide_messages_are_told(rt: HostRuntime) -> Result<(), Fail> {
    let packet = packet(rt.alloc(), 138)?;
    for (reference, want) in [(Reference::Short(1), false), (Reference::Wide(1), true)] {
        for element in [COMMAND, RESPONSE] {
            for place in [1, 2] {
                let message = message(&packet, element, reference, place).ok_or("no such place")?;
                assert_eq!(rt; is_wide(message.as_slice()), want, "{element}, {place}");
            }
        }
    }
    let cases: [(&[u8], bool); 9] = [
        // The elements in the other order, and a total of one.
        (
            &[0x08, 0x70, 0x00, 0x08, 0x04, 0x00, 0x01, 0x02, 0x01, 0xAA],
            true,
        ),
        (
            &[0x08, 0x71, 0x00, 0x08, 0x04, 0x00, 0x01, 0x01, 0x01, 0xAA],
            true,
        ),
        // Of neither packet, nothing behind the header, a place of 0 or above the total, one that is no first.
        (
            &[0x08, 0x72, 0x00, 0x08, 0x04, 0x00, 0x01, 0x02, 0x01, 0xAA],
            false,
        ),
        (&[0x06, 0x08, 0x04, 0x00, 0x01, 0x02, 0x02], false),
        (&[0x06, 0x08, 0x04, 0x00, 0x01, 0x02, 0x00, 0xAA], false),
        (&[0x06, 0x08, 0x04, 0x00, 0x01, 0x02, 0x03, 0xAA], false),
        (&[0x06, 0x08, 0x04, 0x00, 0x01, 0x02, 0x01, 0xAA], false),
        (&[0x02, 0x70, 0x00, 0xAA], false),
        (&[], false),
    ];
    for (message, want) in cases {
        assert_eq!(rt; is_wide(message), want, "{message:?}");
    }
    Ok(())
}

#[test]
fn last_piece_of_a_place_counts(rt: HostRuntime) -> Result<(), Fail> {
    let mut assembler = Assembler::new(rt.alloc(), RESPONSE);
    // The first message's elements in the other order, twice at place 1.
    for (message, want) in [
        (
            [0x07, 0x71, 0x00, 0x00, 0x03, 0x09, 0x02, 0x01, 0xAA].as_slice(),
            "more",
        ),
        (
            [0x07, 0x00, 0x03, 0x09, 0x02, 0x01, 0x71, 0x00, 0xBB].as_slice(),
            "more",
        ),
        (
            [0x05, 0x00, 0x03, 0x09, 0x02, 0x02, 0xCC].as_slice(),
            "whole",
        ),
        // A total of one.
        (
            [0x07, 0x00, 0x03, 0x09, 0x01, 0x01, 0x71, 0x00, 0xBB, 0xCC].as_slice(),
            "whole",
        ),
        // The same with a reference of two octets.
        (
            [0x08, 0x71, 0x00, 0x08, 0x04, 0x00, 0x09, 0x02, 0x01, 0xAA].as_slice(),
            "more",
        ),
        (
            [0x08, 0x08, 0x04, 0x00, 0x09, 0x02, 0x01, 0x71, 0x00, 0xBB].as_slice(),
            "more",
        ),
        (
            [0x06, 0x08, 0x04, 0x00, 0x09, 0x02, 0x02, 0xCC].as_slice(),
            "whole",
        ),
        (
            [
                0x08, 0x08, 0x04, 0x00, 0x09, 0x01, 0x01, 0x71, 0x00, 0xBB, 0xCC,
            ]
            .as_slice(),
            "whole",
        ),
        (
            [
                0x08, 0x71, 0x00, 0x08, 0x04, 0x00, 0x09, 0x01, 0x01, 0xBB, 0xCC,
            ]
            .as_slice(),
            "whole",
        ),
    ] {
        let push = assembler.push(CARD, message)?;
        let (word, octets) = told(&push);
        assert_eq!(rt; word, want);
        if word == "whole" {
            assert!(rt; octets == [0xBB, 0xCC].as_slice());
        }
    }
    Ok(())
}

#[test]
fn other_headers_are_not_ours(rt: HostRuntime) -> Result<(), Fail> {
    let cases: [&[u8]; 24] = [
        // Nothing, or nothing behind a header.
        &[],
        &[0x02, 0x71, 0x00],
        &[0x07, 0x00, 0x03, 0x01, 0x02, 0x01, 0x71, 0x00],
        &[0x05, 0x00, 0x03, 0x01, 0x02, 0x02],
        // A command's message, other elements and other lengths.
        &[0x02, 0x70, 0x00, 0xAA],
        &[0x02, 0x71, 0x01, 0xAA],
        &[0x03, 0x71, 0x00, 0xAA, 0xAA],
        &[0x07, 0x00, 0x03, 0x01, 0x02, 0x01, 0x70, 0x00, 0xAA],
        // With a reference of two octets: nothing behind a header, another element, length or place.
        &[0x08, 0x08, 0x04, 0x00, 0x01, 0x02, 0x01, 0x71, 0x00],
        &[0x06, 0x08, 0x04, 0x00, 0x01, 0x02, 0x02],
        &[0x08, 0x08, 0x04, 0x00, 0x01, 0x02, 0x01, 0x70, 0x00, 0xAA],
        &[0x07, 0x08, 0x04, 0x00, 0x01, 0x02, 0x02, 0xAA],
        &[0x06, 0x08, 0x03, 0x00, 0x01, 0x02, 0x02, 0xAA],
        &[0x06, 0x08, 0x04, 0x00, 0x01, 0x02, 0x03, 0xAA],
        &[0x08, 0x08, 0x04, 0x00, 0x01, 0x00, 0x01, 0x71, 0x00, 0xAA],
        &[0x08, 0x71, 0x00, 0x08, 0x04, 0x00, 0x01, 0x02, 0x02, 0xAA],
        // A total or a place of 0, a place above the total.
        &[0x07, 0x00, 0x03, 0x01, 0x00, 0x01, 0x71, 0x00, 0xAA],
        &[0x07, 0x00, 0x03, 0x01, 0x02, 0x00, 0x71, 0x00, 0xAA],
        &[0x05, 0x00, 0x03, 0x01, 0x02, 0x00, 0xAA],
        &[0x05, 0x00, 0x03, 0x01, 0x00, 0x00, 0xAA],
        &[0x05, 0x00, 0x03, 0x01, 0x02, 0x03, 0xAA],
        // A first message without the element, a later one with it.
        &[0x05, 0x00, 0x03, 0x01, 0x02, 0x01, 0xAA],
        &[0x07, 0x00, 0x03, 0x01, 0x02, 0x02, 0x71, 0x00, 0xAA],
        // 141 octets.
        &[0x02; 141],
    ];
    let mut assembler = Assembler::new(rt.alloc(), RESPONSE);
    for message in cases {
        let push = assembler.push(CARD, message)?;
        assert_eq!(rt; told(&push).0, "not ours", "{message:?}");
    }
    Ok(())
}

#[test]
fn room_is_made_ahead(rt: HostRuntime) -> Result<(), Fail> {
    let packet = packet(rt.alloc(), 300)?;
    let mut assembler = Assembler::new(rt.alloc(), COMMAND);
    for (place, want) in [(1, "more"), (2, "more"), (3, "whole")] {
        assembler.make_room()?;
        pushes(
            &rt,
            &mut assembler,
            CARD,
            &packet,
            Reference::Short(7),
            place,
            want,
        )?;
    }
    // The answer to a packet for a keyset that the card lacks: 16 octets with their header.
    let message = [
        0x02, 0x71, 0x00, 0x00, 0x0B, 0x0A, 0xB0, 0x00, 0x10, 0x00, 0x00, 0x00, 0x00, 0x00, 0x00,
        0x06,
    ];
    let (_, answer) = message.split_at(3);
    let cut = crate::tests::message(answer, RESPONSE, Reference::Short(0), 1).ok_or(
        "no such place",
    )?;
    assert!(rt; cut.as_slice() == message.as_slice());
    let mut assembler = Assembler::new(rt.alloc(), RESPONSE);
    assembler.make_room()?;
    let push = assembler.push(CARD, &message)?;
    let (word, octets) = told(&push);
    assert_eq!(rt; word, "whole");
    assert_eq!(rt; octets.len(), 13);
    Ok(())
}
