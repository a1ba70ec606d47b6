ghost use Rattle.std.specs.Prelude.{◌≤◌, length};

use super::*;

/// The status word of a command on a new card, once the file of a path from the MF is selected. The command
/// is INS, P1, P2, P3 and its data.
fn word_of(alloc: Global, path: &[u8], command: &[u8]) -> Result<u16, Memory>
    requires { length path.now ≤ 8 }
{
    let mut files = Files::fresh(alloc)?;
    if !path.is_empty() {
        let _ = files.select(8, 4, path.len() as u8, path)?;
    }
    let reply = run(&mut files, command)?;
    Ok(reply.sw)
}

fn run(files: &mut Files, command: &[u8]) -> Result<Reply, Memory> {
    let (ins, p1, p2, p3, octets) = match command {
        [ins, p1, p2, p3, octets @ ..] => (*ins, *p1, *p2, *p3, octets),
        _ => return Ok(Reply::refused(Refusal::WrongLength)),
    };
    if ins == 0xB0 {
        return files.read_binary(p1, p2, p3, &[]);
    }
    if ins == 0xB2 {
        return files.read_record(p1, p2, p3, &[]);
    }
    if octets.len() != usize::from(p3) {
        return Ok(Reply::refused(Refusal::WrongLength));
    }
    match ins {
        0xA4 => files.select(p1, p2, p3, octets),
        0xD6 => files.update_binary(p1, p2, p3, octets),
        0xDC => files.update_record(p1, p2, p3, octets),
        0xA2 => files.search_record(p1, p2, p3, octets),
        0x32 => files.increase(p1, p2, p3, octets),
        0x04 => files.deactivate(p1, p2, p3, octets),
        _ => files.activate(p1, p2, p3, octets),
    }
}

#[test]
fn files_are_selected(rt: HostRuntime) -> Result<(), Memory> {
    let adn = [0x7F, 0x10, 0x6F, 0x3A];
    assert_eq!(rt;
        word_of(rt.alloc(), &[], &[0xA4, 0, 0, 2, 0x7F, 0x10])?,
        0x9000
    );
    assert_eq!(rt;
        word_of(rt.alloc(), &adn, &[0xA4, 0, 0, 2, 0x6F, 0x42])?,
        0x9000
    );
    assert_eq!(rt;
        word_of(rt.alloc(), &adn, &[0xA4, 0, 0, 2, 0x3F, 0])?,
        0x9000
    );
    assert_eq!(rt;
        word_of(rt.alloc(), &adn, &[0xA4, 0, 0, 2, 0x7F, 0x10])?,
        0x6A82
    );
    assert_eq!(rt;
        word_of(rt.alloc(), &adn, &[0xA4, 8, 0, 4, 0x7F, 0x10, 0x6F, 0xA1])?,
        0x6A82
    );
    assert_eq!(rt;
        word_of(rt.alloc(), &[], &[0xA4, 4, 0, 2, 0x7F, 0x10])?,
        0x6A86
    );
    assert_eq!(rt; word_of(rt.alloc(), &[], &[0xA4, 0, 0, 1, 0x7F])?, 0x6700);
    Ok(())
}

#[test]
fn octets_are_read_and_written(rt: HostRuntime) -> Result<(), Memory> {
    let octets = [0x6F, 0xA1];
    let iccid = [0x2F, 0xE2];
    assert_eq!(rt; word_of(rt.alloc(), &octets, &[0xD6, 0, 63, 1, 7])?, 0x9000);
    assert_eq!(rt;
        word_of(rt.alloc(), &octets, &[0xD6, 0, 63, 2, 7, 7])?,
        0x6B00
    );
    assert_eq!(rt; word_of(rt.alloc(), &octets, &[0xB0, 0, 64, 0])?, 0x6B00);
    assert_eq!(rt; word_of(rt.alloc(), &octets, &[0xB0, 0, 63, 0])?, 0x9000);
    assert_eq!(rt; word_of(rt.alloc(), &octets, &[0xB0, 128, 0, 0])?, 0x6A86);
    assert_eq!(rt; word_of(rt.alloc(), &iccid, &[0xD6, 0, 0, 1, 0])?, 0x6982);
    assert_eq!(rt; word_of(rt.alloc(), &[], &[0xD6, 0, 0, 1, 0])?, 0x6986);
    assert_eq!(rt; word_of(rt.alloc(), &octets, &[0xD6, 0, 0, 0])?, 0x6700);
    Ok(())
}

#[test]
fn records_and_marks_are_changed(rt: HostRuntime) -> Result<(), Memory> {
    let counter = [0x6F, 0xA0];
    let adn = [0x7F, 0x10, 0x6F, 0x3A];
    assert_eq!(rt;
        word_of(rt.alloc(), &adn, &[0xD6, 0, 0, 3, 0xAA, 0xBB, 0xCC])?,
        0x6981
    );
    assert_eq!(rt;
        word_of(rt.alloc(), &counter, &[0xDC, 0, 3, 3, 1, 2, 3])?,
        0x9000
    );
    assert_eq!(rt;
        word_of(rt.alloc(), &counter, &[0x32, 0, 0, 3, 0, 0, 5])?,
        0x9000
    );
    assert_eq!(rt; word_of(rt.alloc(), &adn, &[0xA2, 1, 4, 1, 0xFF])?, 0x9000);
    assert_eq!(rt; word_of(rt.alloc(), &adn, &[0xA2, 1, 4, 1, 0])?, 0x6A83);
    assert_eq!(rt; word_of(rt.alloc(), &adn, &[0xB2, 11, 4, 28])?, 0x6A83);
    assert_eq!(rt; word_of(rt.alloc(), &counter, &[0x04, 0, 0, 0])?, 0x9000);
    assert_eq!(rt; word_of(rt.alloc(), &counter, &[0x44, 0, 0, 0])?, 0x6985);
    Ok(())
}

#[test]
fn files_are_created_and_deleted(rt: HostRuntime) -> Result<(), Memory> {
    let mut files = Files::fresh(rt.alloc())?;
    let reply = files.create(0, 0, 6, &[2, 0x6F, 0xB0, 0, 0, 3])?;
    assert_eq!(rt; reply.sw, 0x9000);
    assert_eq!(rt;
        files.octets_of(&[0x6FB0]),
        Some([0xFF, 0xFF, 0xFF].as_slice())
    );
    assert!(rt; files.octets_of(&[0x7F10, 0x6F3A]).is_none());
    let reply = files.read_binary(0, 1, 0, &[])?;
    assert_eq!(rt; reply.out.as_slice(), [0xFF, 0xFF].as_slice());
    let reply = files.create(0, 0, 6, &[2, 0x6F, 0xB0, 0, 0, 3])?;
    assert_eq!(rt; reply.sw, 0x6A80);
    let reply = files.delete(0, 0, 2, &[0x6F, 0xB0])?;
    assert_eq!(rt; reply.sw, 0x9000);
    assert!(rt; files.octets_of(&[0x6FB0]).is_none());
    let reply = files.read_binary(0, 0, 0, &[])?;
    assert_eq!(rt; reply.sw, 0x6986);
    let reply = files.delete(0, 0, 2, &[0x2F, 0xE2])?;
    assert_eq!(rt; reply.sw, 0x6982);
    let reply = files.delete(0, 0, 2, &[0x7F, 0x10])?;
    assert_eq!(rt; reply.sw, 0x9000);
    let reply = files.select(8, 0, 4, &[0x7F, 0x10, 0x6F, 0x3A])?;
    assert_eq!(rt; reply.sw, 0x6A82);
    files.select_mf();
    let reply = files.delete(0, 0, 2, &[0x7F, 0x10])?;
    assert_eq!(rt; reply.sw, 0x6A82);
    Ok(())
}

/// The word of CREATE FILE of a transparent EF in the current folder.
fn create(files: &mut Files, id: u16, size: u16) -> Result<u16, Memory> {
    let [high, low] = id.to_be_bytes();
    let [more, less] = size.to_be_bytes();
    let reply = files.create(0, 0, 6, &[2, high, low, 0, more, less])?;
    Ok(reply.sw)
}

// The card begins with 7 files, and its EFs hold 443 octets.
#[test]
fn room_has_its_limits(rt: HostRuntime) -> Result<(), Memory> {
    let mut files = Files::fresh(rt.alloc())?;
    for id in 0..249 {
        assert_eq!(rt; create(&mut files, id, 1)?, 0x9000);
    }
    assert_eq!(rt; create(&mut files, 0x5000, 1)?, 0x6A84);
    let mut files = Files::fresh(rt.alloc())?;
    assert_eq!(rt; create(&mut files, 0x5000, 32_326)?, 0x6A84);
    assert_eq!(rt; create(&mut files, 0x5000, 32_325)?, 0x9000);
    assert_eq!(rt; create(&mut files, 0x5001, 1)?, 0x6A84);
    let reply = files.create(0, 0, 6, &[1, 0x50, 2, 0, 0, 0])?;
    assert_eq!(rt; reply.sw, 0x9000);
    Ok(())
}
