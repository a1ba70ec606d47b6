//! What lines of work on messages give.

use crate::words::{digits, octets};
use anyhow::{Result, bail};
use arrayvec::ArrayVec;
use ota_core::{CardId, Reference};
use sms_segments::{Assembler, Push, piece, pieces_of};
use std::alloc::Global;
use std::str::SplitWhitespace;

/// The next word's element, in hexadecimal digits: 70 of a command packet, 71 of a response packet.
fn element(alloc: Global, words: &mut SplitWhitespace<'_>) -> Result<u8> {
    let octets = octets(alloc, words)?;
    match octets.as_slice() {
        [element] => Ok(*element),
        _ => bail!("an element is an octet"),
    }
}

/// The next word's reference, of one octet or of two.
fn reference(alloc: Global, words: &mut SplitWhitespace<'_>) -> Result<Reference> {
    let octets = octets(alloc, words)?;
    match octets.as_slice() {
        [octet] => Ok(Reference::Short(*octet)),
        [high, low] => Ok(Reference::Wide(256 * u16::from(*high) + u16::from(*low))),
        _ => bail!("a reference has one octet or two"),
    }
}

/// The message at a place of a packet, where there is one.
fn message(
    packet: &[u8],
    element: u8,
    reference: Reference,
    place: u8,
) -> Option<ArrayVec<u8, 140>> {
    let (wide, longest) = match reference {
        Reference::Short(_) => (false, 34_168),
        Reference::Wide(_) => (true, 33_913),
    };
    if packet.is_empty() || packet.len() > longest || place == 0 {
        return None;
    }
    if u32::from(place) > pieces_of(packet.len(), wide) {
        return None;
    }
    if element != 0x70 && element != 0x71 {
        return None;
    }
    Some(piece(packet, element, reference, place))
}

/// The messages of a packet.
pub fn cut(alloc: Global, words: &mut SplitWhitespace<'_>) -> Result<String> {
    let element = element(alloc, words)?;
    let reference = reference(alloc, words)?;
    let packet = octets(alloc, words)?;
    let mut text = String::new(alloc);
    for place in 1..=255 {
        if let Some(message) = message(&packet, element, reference, place) {
            if place > 1 {
                text.push(' ')?;
            }
            text.push_str(&digits(alloc, message.as_slice())?)?;
        }
    }
    Ok(text)
}

/// What each message of a card gives to an assembler: `more`, `not-ours`, or the packet that it makes whole. A message
/// has its card's number and a colon before it.
pub fn assemble(alloc: Global, words: &mut SplitWhitespace<'_>) -> Result<String> {
    let element = element(alloc, words)?;
    let mut assembler = Assembler::new(alloc, element);
    let mut text = String::new(alloc);
    for word in words {
        let (card, message) = match word.split_once(':') {
            Some(parts) => parts,
            None => bail!("a message has no card"),
        };
        let card = CardId(card.parse::<u64>()?);
        let message = hex::decode(alloc, message)?;
        let push = assembler.push(card, &message)?;
        if !text.is_empty() {
            text.push(' ')?;
        }
        match push {
            Push::More => text.push_str("more")?,
            Push::NotOurs => text.push_str("not-ours")?,
            Push::Whole(packet) => text.push_str(&digits(alloc, packet.as_slice())?)?,
        }
    }
    Ok(text)
}
