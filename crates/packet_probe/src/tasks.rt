//! What a line of work gives.

use crate::pieces::{assemble, cut};
use crate::words::{counter, digits, is_ciphered, keys, octet, octets, tar};
use anyhow::{Result, bail, ensure};
use ota_core::{Spi, read_spi, write_spi};
use std::alloc::Global;
use std::str::SplitWhitespace;

/// The next word's SPI.
fn spi(alloc: Global, words: &mut SplitWhitespace<'_>) -> Result<Spi> {
    let octets = octets(alloc, words)?;
    match octets.as_slice() {
        [first, second] => Ok(read_spi([*first, *second])?),
        _ => bail!("an SPI has two octets"),
    }
}

fn command(alloc: Global, words: &mut SplitWhitespace<'_>) -> Result<String> {
    let keys = keys(alloc, words)?;
    let kvn = octet(words)?;
    let spi = spi(alloc, words)?;
    let tar = tar(alloc, words)?;
    let counter = counter(words)?;
    let body = octets(alloc, words)?;
    ensure!(kvn >= 1 && kvn <= 15, "no key version number");
    ensure!(!body.is_empty() && body.len() <= 4096, "no body");
    let packet = command_packet::build(alloc, &keys, kvn, spi, tar, counter, &body)?;
    digits(alloc, packet.as_slice())
}

fn response(alloc: Global, words: &mut SplitWhitespace<'_>) -> Result<String> {
    let keys = keys(alloc, words)?;
    let ciphered = is_ciphered(words)?;
    let tar = tar(alloc, words)?;
    let counter = counter(words)?;
    let status = octet(words)?;
    let octets = octets(alloc, words)?;
    ensure!(octets.len() <= 259, "too many data");
    let packet = response_packet::build(alloc, &keys, ciphered, tar, counter, status, &octets)?;
    digits(alloc, packet.as_slice())
}

fn open_command(alloc: Global, words: &mut SplitWhitespace<'_>) -> Result<String> {
    let keys = keys(alloc, words)?;
    let kvn = octet(words)?;
    let packet = octets(alloc, words)?;
    match command_packet::open(alloc, &keys, kvn, &packet) {
        Ok(command) => {
            let spi = digits(alloc, &write_spi(command.spi))?;
            let tar = digits(alloc, &command.tar.0)?;
            let body = digits(alloc, command.body.as_slice())?;
            let counter = command.counter.0;
            Ok(format!(in alloc; "{spi} {tar} {counter} {body}")?)
        }
        Err(refusal) => Ok(format!(in alloc; "{refusal:?}")?),
    }
}

fn open_response(alloc: Global, words: &mut SplitWhitespace<'_>) -> Result<String> {
    let keys = keys(alloc, words)?;
    let ciphered = is_ciphered(words)?;
    let packet = octets(alloc, words)?;
    match response_packet::open(alloc, &keys, ciphered, &packet) {
        Ok(answer) => {
            let tar = digits(alloc, &answer.tar.0)?;
            let octets = digits(alloc, answer.octets.as_slice())?;
            let counter = answer.counter.0;
            let status = answer.status;
            Ok(format!(in alloc; "{tar} {counter} {status} {octets}")?)
        }
        Err(refusal) => Ok(format!(in alloc; "{refusal:?}")?),
    }
}

/// What a task gives with the words behind it.
pub fn answer(alloc: Global, task: &str, words: &mut SplitWhitespace<'_>) -> Result<String> {
    match task {
        "command" => command(alloc, words),
        "response" => response(alloc, words),
        "open-command" => open_command(alloc, words),
        "open-response" => open_response(alloc, words),
        "cut" => cut(alloc, words),
        "assemble" => assemble(alloc, words),
        _ => bail!("no such task: {task:?}"),
    }
}
