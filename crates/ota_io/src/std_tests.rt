// A sink over a writer, a source over a reader and a clock over a runtime that do at each call what they are told.
use crate::scripted::Turn::{Fails, Interrupted, Moves};
use crate::scripted::{ScriptedReader, ScriptedWriter, Turn};
use crate::{
    Clock, Failed, ReadErr, Sink, Source, StdSink, StdSource, StillClock, SystemClock, read_all,
    write_all,
};
use std::alloc::{AllocError, Global};
use std::io::ErrorKind;
use std::test::Fail;
use std::time::Duration;
use std::{io, rt};

const TEXT: &[u8] = &[1, 2, 3, 4];

// What a write of the text through a sink answers, and what the writer took.
fn written(alloc: Global, turns: &[Turn]) -> Result<(Result<usize, Failed>, Vec<u8>), AllocError> {
    let mut writer = writer_of(alloc, turns)?;
    let answer = StdSink::new(&mut writer).write(TEXT);
    Ok((answer, writer.octets))
}

// The same of the whole text.
fn all_written(alloc: Global, turns: &[Turn]) -> Result<(Result<(), Failed>, Vec<u8>), AllocError> {
    let mut writer = writer_of(alloc, turns)?;
    let answer = write_all(&mut StdSink::new(&mut writer), TEXT);
    Ok((answer, writer.octets))
}

fn writer_of(alloc: Global, turns: &[Turn]) -> Result<ScriptedWriter, AllocError> {
    Ok(ScriptedWriter {
        turns: Vec::from_slice(alloc, turns)?,
        made: 0,
        octets: Vec::new(alloc),
    })
}

fn reader_of(alloc: Global, turns: &[Turn]) -> Result<ScriptedReader, AllocError> {
    Ok(ScriptedReader {
        turns: Vec::from_slice(alloc, turns)?,
        made: 0,
        octets: Vec::from_slice(alloc, TEXT)?,
        at: 0,
    })
}

#[test]
fn a_sink_answers_what_its_writer_took(rt: HostRuntime) -> Result<(), Fail> {
    let alloc = rt.alloc();
    let cases: [(&[Turn], Result<usize, Failed>, usize); 8] = [
        (&[Moves(1)], Ok(1), 1),
        (&[Moves(3)], Ok(3), 3),
        (&[Moves(9)], Ok(4), 4),
        (&[Moves(0)], Err(Failed), 0),
        (&[Fails], Err(Failed), 0),
        (&[Interrupted, Interrupted, Moves(2)], Ok(2), 2),
        (&[Interrupted, Moves(0), Moves(4)], Err(Failed), 0),
        (&[Interrupted, Fails, Moves(4)], Err(Failed), 0),
    ];
    for (turns, wanted, count) in cases {
        let (answer, octets) = written(alloc, turns)?;
        assert_eq!(rt; answer, wanted);
        assert_eq!(rt; octets.as_slice(), &TEXT[..count]);
    }
    Ok(())
}

#[test]
fn a_whole_text_is_written_piece_by_piece(rt: HostRuntime) -> Result<(), Fail> {
    let alloc = rt.alloc();
    let cases: [(&[Turn], Result<(), Failed>, usize); 6] = [
        (&[Moves(1), Moves(1), Moves(1), Moves(1)], Ok(()), 4),
        (&[Moves(3), Moves(9)], Ok(()), 4),
        (&[Moves(1), Interrupted, Moves(3)], Ok(()), 4),
        (&[Moves(1), Moves(0), Moves(9)], Err(Failed), 1),
        (&[Moves(3), Fails, Moves(9)], Err(Failed), 3),
        (&[Fails, Moves(9)], Err(Failed), 0),
    ];
    for (turns, wanted, count) in cases {
        let (answer, octets) = all_written(alloc, turns)?;
        assert_eq!(rt; answer, wanted);
        assert_eq!(rt; octets.as_slice(), &TEXT[..count]);
    }
    Ok(())
}

// Nothing to write makes no call, and a writer that is interrupted for ever fails.
#[test]
fn a_sink_makes_no_needless_call(rt: HostRuntime) -> Result<(), Fail> {
    let alloc = rt.alloc();
    let mut none = writer_of(alloc, &[Fails])?;
    let mut sink = StdSink::new(&mut none);
    assert_eq!(rt; sink.write(&[]), Ok(0));
    let waiting = vec![in alloc; Interrupted; 2_000]?;
    let (answer, octets) = written(alloc, &waiting)?;
    assert_eq!(rt; answer, Err(Failed));
    assert!(rt; octets.is_empty());
    Ok(())
}

#[test]
fn a_source_answers_what_its_reader_gave(rt: HostRuntime) -> Result<(), Fail> {
    let alloc = rt.alloc();
    let cases: [(&[Turn], Result<usize, Failed>, [u8; 4]); 8] = [
        (&[Moves(1)], Ok(1), [1, 9, 9, 9]),
        (&[Moves(3)], Ok(3), [1, 2, 3, 9]),
        (&[Moves(9)], Ok(4), [1, 2, 3, 4]),
        (&[Moves(0)], Ok(0), [9, 9, 9, 9]),
        (&[Fails], Err(Failed), [9, 9, 9, 9]),
        (&[Interrupted, Interrupted, Moves(2)], Ok(2), [1, 2, 9, 9]),
        (&[Interrupted, Moves(0), Moves(4)], Ok(0), [9, 9, 9, 9]),
        (&[Interrupted, Fails, Moves(4)], Err(Failed), [9, 9, 9, 9]),
    ];
    for (turns, wanted, held) in cases {
        let mut source = StdSource::new(reader_of(alloc, turns)?);
        let mut room = [9; 4];
        let answer = source.read(&mut room);
        assert_eq!(rt; answer, wanted);
        assert_eq!(rt; room, held);
    }
    Ok(())
}

// An error is no end, and the end is one.
#[test]
fn a_whole_text_is_read_piece_by_piece(rt: HostRuntime) -> Result<(), Fail> {
    let alloc = rt.alloc();
    let cases: [(&[Turn], Result<usize, ReadErr>); 5] = [
        (&[Moves(1), Moves(1), Moves(1), Moves(1), Moves(1)], Ok(4)),
        (&[Moves(3), Interrupted, Moves(9), Moves(9)], Ok(4)),
        (&[Moves(3), Moves(0), Moves(9)], Ok(3)),
        (&[Moves(3), Fails, Moves(9)], Err(ReadErr::Fault)),
        (&[Moves(9), Fails], Err(ReadErr::Fault)),
    ];
    for (turns, wanted) in cases {
        let mut source = StdSource::new(reader_of(alloc, turns)?);
        match read_all(alloc, &mut source) {
            Ok(text) => {
                assert_eq!(rt; Ok(text.len()), wanted);
                assert_eq!(rt; text.as_slice(), &TEXT[..text.len().min(4)]);
            }
            Err(error) => assert_eq!(rt; Err(error), wanted),
        }
    }
    Ok(())
}

// A runtime's clock that gives this, or fails.
#[derive(Drop)]
struct FixedClock(Option<Duration>);

impl rt::Clock for FixedClock {
    fn monotonic(&self) -> io::Result<Duration> {
        Ok(Duration::from_secs(5))
    }

    fn since_1970(&self) -> io::Result<Duration> {
        match self.0 {
            Some(passed) => Ok(passed),
            None => Err(io::Error::from(ErrorKind::Unsupported)),
        }
    }
}

fn moment<C: Clock>(clock: &C) -> u64 {
    clock.now()
}

// The machine that runs this is set to a time after 2023-11-14.
#[test]
fn a_clock_gives_seconds_since_1970(rt: HostRuntime) -> Result<(), Fail> {
    assert_eq!(rt; moment(&StillClock), 0);
    let passed = Duration::from_millis(1_234_999);
    assert_eq!(rt; moment(&SystemClock::new(FixedClock(Some(passed)))), 1_234);
    assert_eq!(rt; moment(&SystemClock::new(FixedClock(None))), 0);
    assert!(rt; moment(&SystemClock::new(rt)) > 1_700_000_000);
    Ok(())
}
