use crate::{InputEnd, SCRIPT_MAX, read_input, say};
use fr_edges::{MemSink, MemSource};
use std::test::Fail;

#[test]
fn a_source_is_read_to_its_end(rt: HostRuntime) -> Result<(), Fail> {
    for piece in [1, 2, 5, 100] {
        let mut source = MemSource::new(b"hello".to_vec(rt.alloc())?, piece, Vec::new(rt.alloc()));
        let bytes = read_input(rt.alloc(), &mut source)
            .ok()
            .ok_or("a read failed")?;
        assert_eq!(rt; bytes.as_slice(), b"hello".as_slice());
    }
    Ok(())
}

#[test]
fn a_read_that_fails_gives_no_bytes(rt: HostRuntime) -> Result<(), Fail> {
    // Three bytes, two bytes, and the end.
    for (number, fails) in [(1, true), (2, true), (3, true), (4, false)] {
        let mut source = MemSource::new(
            b"hello".to_vec(rt.alloc())?,
            3,
            [number].to_vec(rt.alloc())?,
        );
        let told = read_input(rt.alloc(), &mut source).err() == Some(InputEnd::Failed);
        assert_eq!(rt; told, fails);
    }
    Ok(())
}

#[test]
fn a_source_is_read_one_byte_past_the_most(rt: HostRuntime) -> Result<(), Fail> {
    for (len, read) in [
        (4_194_304, 4_194_304),
        (4_194_305, 4_194_305),
        (4_194_306, 4_194_305),
    ] {
        let mut bytes = Vec::new(rt.alloc());
        bytes.resize(len, 7)?;
        let mut source = MemSource::new(bytes, 100_000, Vec::new(rt.alloc()));
        let bytes = read_input(rt.alloc(), &mut source)
            .ok()
            .ok_or("a read failed")?;
        assert_eq!(rt; bytes.as_slice().len(), read);
    }
    assert_eq!(rt; SCRIPT_MAX, 4_194_304);
    Ok(())
}

#[test]
fn a_text_is_written_until_a_write_fails(rt: HostRuntime) -> Result<(), Fail> {
    let table = [
        (1, 3, b"".as_slice()),
        (2, 3, b"hel".as_slice()),
        (3, 1, b"hello".as_slice()),
    ];
    for (number, status, written) in table {
        let mut sink = MemSink::new(rt.alloc(), 3, [number].to_vec(rt.alloc())?);
        assert_eq!(rt; say(&mut sink, b"hello", 1), status);
        assert_eq!(rt; sink.written(), written);
    }
    Ok(())
}
