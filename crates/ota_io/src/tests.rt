// Sources and sinks in memory and over real files.
use crate::{
    Failed, MemSink, MemSource, ReadErr, Sink, Source, StdSink, StdSource, read_all, write_all,
};
use std::fs;
use std::test::Fail;

const TEXT: &[u8] = b"kvn,card\n1,8901\n";

#[test]
fn a_text_is_read_whole(rt: HostRuntime) -> Result<(), Fail> {
    let alloc = rt.alloc();
    let mut source = MemSource::new(TEXT.to_vec(alloc)?, Vec::new(alloc));
    let text = read_all(alloc, &mut source);
    assert!(rt; text.is_ok_and(|text| text.as_slice() == TEXT));
    let mut room = [0; 4];
    assert_eq!(rt; source.read(&mut room), Ok(0));
    Ok(())
}

#[test]
fn the_limit_is_exact(rt: HostRuntime) -> Result<(), Fail> {
    let alloc = rt.alloc();
    for (size, is_read) in [(8_388_607, true), (8_388_608, true), (8_388_609, false)] {
        let mut source = MemSource::new(vec![in alloc; 7; size]?, Vec::new(alloc));
        match read_all(alloc, &mut source) {
            Ok(text) => assert!(rt; is_read && text.len() == size, "at {size}"),
            Err(error) => assert!(rt; !is_read && error == ReadErr::TooLong, "at {size}"),
        }
    }
    Ok(())
}

#[test]
fn a_listed_read_fails(rt: HostRuntime) -> Result<(), Fail> {
    let alloc = rt.alloc();
    let mut source = MemSource::new(TEXT.to_vec(alloc)?, vec![in alloc; 2]?);
    let mut room = [0; 4];
    assert_eq!(rt; source.read(&mut room), Ok(4));
    assert_eq!(rt; source.read(&mut room), Err(Failed));
    assert_eq!(rt; source.read(&mut room), Ok(4));
    assert_eq!(rt; room.as_slice(), b"card".as_slice());
    let failed = read_all(
        alloc,
        &mut MemSource::new(TEXT.to_vec(alloc)?, vec![in alloc; 1]?),
    );
    assert!(rt; failed.is_err_and(|error| error == ReadErr::Fault));
    Ok(())
}

#[test]
fn a_sink_takes_what_it_has_room_for(rt: HostRuntime) -> Result<(), Fail> {
    let alloc = rt.alloc();
    for room in [0, 10, 16, 100] {
        match MemSink::new(alloc, room, Vec::new(alloc)) {
            Ok(mut sink) => {
                let written = write_all(&mut sink, TEXT);
                let held = TEXT.len().min(room);
                assert_eq!(rt; written.is_ok(), room >= TEXT.len(), "at {room}");
                assert_eq!(rt; sink.content(), &TEXT[..held], "at {room}");
            }
            Err(_) => return Err(Fail::from("no memory")),
        }
    }
    Ok(())
}

// What is written through std's writer is read back through its reader. A sink over a file that is open for
// reading alone fails, and a source over one that is open for writing alone.
#[test]
fn a_real_file_is_written_and_read(rt: HostRuntime) -> Result<(), Fail> {
    let alloc = rt.alloc();
    let path = "ota_io_text.tmp";
    let written = write_all(&mut StdSink::new(fs::create(&rt, path)?), TEXT);
    let text = read_all(alloc, &mut StdSource::new(fs::open(&rt, path)?));
    let closed_sink = write_all(&mut StdSink::new(fs::open(&rt, path)?), TEXT);
    let closed_source = read_all(alloc, &mut StdSource::new(fs::create(&rt, path)?));
    fs::remove_file(&rt, path)?;
    assert_eq!(rt; written, Ok(()));
    assert!(rt; text.is_ok_and(|text| text.as_slice() == TEXT));
    assert_eq!(rt; closed_sink, Err(Failed));
    assert!(rt; closed_source.is_err_and(|error| error == ReadErr::Fault));
    Ok(())
}
