// Tests of `desk` for what no clause says: that calls succeed, and what the system's files and writers return.
use desk::{
    Desk, DeskFault, Failed, FileDesk, MemoryDesk, MemorySink, Named, StreamSink, read_into,
    write_all,
};
use irv_base::Name;
use std::alloc::{AllocError, Global};
use std::fs;
use std::test::Fail;

const NO_FAILURE: [u32; 0] = [];

// A desk that holds `a` twice, and on which some calls fail.
fn desk_of(alloc: Global, fails: &[u32]) -> Result<MemoryDesk, AllocError> {
    let mut files = Vec::new(alloc);
    for text in ["first", "second"] {
        if let Some(name) = Name::read(b"a") {
            files.push(Named {
                name,
                bytes: text.as_bytes().to_vec(alloc)?,
            })?;
        }
    }
    Ok(MemoryDesk::new(files, fails.to_vec(alloc)?))
}

// The bytes of a file.
fn read_all<D: Desk>(
    alloc: Global,
    desk: &mut D,
    name: &str,
    limit: u32,
) -> Result<Vec<u8>, DeskFault> {
    let mut bytes = Vec::new(alloc);
    read_into(desk, name, limit, &mut bytes)?;
    Ok(bytes)
}

#[test]
fn the_first_file_of_a_name_is_read_whole(rt: HostRuntime) -> Result<(), Fail> {
    let alloc = rt.alloc();
    let mut desk = desk_of(alloc, &NO_FAILURE)?;
    let bytes = read_all(alloc, &mut desk, "a", 5)?;
    assert_eq!(rt; bytes.as_slice(), b"first".as_slice());
    assert_eq!(rt;
        read_all(alloc, &mut desk, "a", 4).err(),
        Some(DeskFault::TooLong)
    );
    assert_eq!(rt;
        read_all(alloc, &mut desk, "b", 5).err(),
        Some(DeskFault::Missing)
    );
    Ok(())
}

#[test]
fn a_file_is_taken_behind_what_was_taken_before(rt: HostRuntime) -> Result<(), Fail> {
    let alloc = rt.alloc();
    let mut desk = desk_of(alloc, &NO_FAILURE)?;
    let mut bytes = b"the ".to_vec(alloc)?;
    read_into(&mut desk, "a", 5, &mut bytes)?;
    assert_eq!(rt; bytes.as_slice(), b"the first".as_slice());
    Ok(())
}

#[test]
fn the_second_read_fails(rt: HostRuntime) -> Result<(), Fail> {
    let alloc = rt.alloc();
    let mut desk = desk_of(alloc, &[3])?;
    assert_eq!(rt;
        read_all(alloc, &mut desk, "a", 5).err(),
        Some(DeskFault::ReadFault)
    );
    let bytes = read_all(alloc, &mut desk, "a", 5)?;
    assert_eq!(rt; bytes.as_slice(), b"first".as_slice());
    Ok(())
}

#[test]
fn the_first_write_fails(rt: HostRuntime) -> Result<(), Fail> {
    let alloc = rt.alloc();
    let mut sink = MemorySink::new(alloc, 8, [1].to_vec(alloc)?)?;
    assert_eq!(rt; write_all(&mut sink, b"text").err(), Some(Failed));
    assert_eq!(rt; sink.bytes(), b"".as_slice());
    write_all(&mut sink, b"text")?;
    assert_eq!(rt; sink.bytes(), b"text".as_slice());
    assert_eq!(rt; write_all(&mut sink, b"longer").err(), Some(Failed));
    Ok(())
}

#[test]
fn a_real_file_is_read(rt: HostRuntime) -> Result<(), Fail> {
    let alloc = rt.alloc();
    fs::write(&rt, "real.txt", "some bytes\n")?;
    let mut desk = FileDesk::new(&rt);
    let bytes = read_all(alloc, &mut desk, "real.txt", 11)?;
    assert_eq!(rt; bytes.as_slice(), b"some bytes\n".as_slice());
    assert_eq!(rt; desk.begin("none.txt").ok(), Some(false));
    assert_eq!(rt; desk.begin("real.txt/none").err(), Some(Failed));
    fs::remove_file(&rt, "real.txt")?;
    Ok(())
}

#[test]
fn a_writer_takes_a_text(rt: HostRuntime) -> Result<(), Fail> {
    let mut room = [0u8; 6];
    let mut sink = StreamSink::new(room.as_mut_slice());
    write_all(&mut sink, b"four")?;
    // There is room for two more bytes, and a write that takes nothing is an error.
    assert_eq!(rt; write_all(&mut sink, b"five").err(), Some(Failed));
    assert_eq!(rt; room.as_slice(), b"fourfi".as_slice());
    Ok(())
}
