//! The words of the commands.
use crate::{Drill, command_for, read_drill, read_words};
use std::alloc::{AllocError, Global};
use std::test::Fail;

fn words_of(alloc: Global, words: &[&str]) -> Result<Vec<String>, AllocError> {
    let mut made = Vec::new(alloc);
    for word in words {
        made.push(String::from_str(alloc, word)?)?;
    }
    Ok(made)
}

/// Whether the words are a command's.
fn are_words(alloc: Global, words: &[&str]) -> Result<bool, Fail> {
    let words = words_of(alloc, words)?;
    let said = read_words(alloc, &words).map_err(|_| AllocError)?;
    Ok(said.is_some())
}

#[test]
fn options_stand_in_any_order(rt: HostRuntime) -> Result<(), Fail> {
    let alloc = rt.alloc();
    let cases: [&[&str]; 6] = [
        &["format", "--lanes", "1", "--store", "s"],
        &["format", "--store", "s", "--lanes", "064"],
        &["format", "--store=s", "--lanes=2"],
        &["cards", "--plan", "p", "--lanes", "4", "--store", "s"],
        &[
            "close",
            "--kvn",
            "15",
            "--card",
            "999999999999999999",
            "--lanes",
            "1",
            "--store",
            "s",
        ],
        &[
            "packet", "--jobs", "j", "--plan", "p", "--lanes", "4", "--store", "s",
        ],
    ];
    for words in cases {
        assert!(rt; are_words(alloc, words)?);
    }
    Ok(())
}

#[test]
fn other_words_are_no_command(rt: HostRuntime) -> Result<(), Fail> {
    let alloc = rt.alloc();
    let cases: [&[&str]; 20] = [
        &[],
        &["help"],
        &["--help"],
        &["format"],
        &["format", "--help"],
        &["format", "--lanes", "0", "--store", "s"],
        &["format", "--lanes", "65", "--store", "s"],
        &["format", "--lanes", "+4", "--store", "s"],
        &["format", "--lanes", "0000000000000000001", "--store", "s"],
        &["format", "--lanes", "", "--store", "s"],
        &["format", "--lanes", "1", "--store", ""],
        &["format", "--lanes", "1", "--store=-s"],
        &["format", "--lanes", "1", "--store", "-"],
        &["format", "--lanes", "1", "--store", "s", "--"],
        &["format", "--lanes", "1", "--lanes", "1", "--store", "s"],
        &["format", "--lanes", "1", "--store", "s", "--plan", "p"],
        &["format", "--lan", "1", "--store", "s"],
        &[
            "close", "--lanes", "1", "--store", "s", "--card", "1", "--kvn", "16",
        ],
        &[
            "report",
            "--lanes",
            "1",
            "--store",
            "s",
            "--plan",
            "p",
            "--jobs",
            "j",
            "--summary",
            "--times",
        ],
        &[
            "reserve", "--lanes", "1", "--store", "s", "--plan", "p", "--jobs", "j", "--name",
            "a-b",
        ],
    ];
    for words in cases {
        assert!(rt; !are_words(alloc, words)?);
    }
    Ok(())
}

/// Whether the words are a command's for so many sites.
fn are_for(alloc: Global, words: &[&str], sites: usize) -> Result<bool, Fail> {
    let words = words_of(alloc, words)?;
    let command = command_for(alloc, &words, sites).map_err(|_| AllocError)?;
    Ok(command.is_some())
}

#[test]
fn lanes_are_as_many_as_sites(rt: HostRuntime) -> Result<(), Fail> {
    let alloc = rt.alloc();
    let words: [&str; 5] = ["format", "--lanes", "2", "--store", "s"];
    assert!(rt; are_for(alloc, words.as_slice(), 2)?);
    assert!(rt; !are_for(alloc, words.as_slice(), 1)?);
    Ok(())
}

#[test]
fn a_drill_says_its_numbers(rt: HostRuntime) -> Result<(), Fail> {
    let alloc = rt.alloc();
    let words = words_of(
        alloc,
        &[
            "drill",
            "--number",
            "7",
            "--cards",
            "500",
            "--count",
            "20000",
            "--lanes",
            "4",
            "--senders",
            "8",
        ],
    )?;
    let expected = Drill {
        number: 7,
        cards: 500,
        count: 20_000,
        lanes: 4,
        senders: 8,
    };
    assert!(rt; read_drill(alloc, &words).map_err(|_| AllocError)? == Some(expected));
    let too_many = words_of(
        alloc,
        &[
            "drill",
            "--number",
            "7",
            "--cards",
            "5001",
            "--count",
            "1",
            "--lanes",
            "4",
            "--senders",
            "8",
        ],
    )?;
    assert!(rt; read_drill(alloc, &too_many).map_err(|_| AllocError)? == None);
    Ok(())
}
