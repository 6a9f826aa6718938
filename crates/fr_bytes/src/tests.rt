use super::*;
use std::alloc::Global;
use std::test::*;

/// The bytes 1f e0 07, 01 to 04, ff down to f8, and "hi".
const BYTES: &[u8] = b"\x1f\xe0\x07\x01\x02\x03\x04\xff\xfe\xfd\xfc\xfb\xfa\xf9\xf8hi";

fn write_numbers(alloc: Global) -> Result<Vec<u8>, NoMemory> {
    let mut out = Vec::new(alloc);
    put_u16(&mut out, 8160)?;
    put_u8(&mut out, 7)?;
    put_u32(&mut out, 0x0102_0304)?;
    put_u64(&mut out, 0xfffe_fdfc_fbfa_f9f8)?;
    put_bytes(&mut out, b"hi")?;
    Ok(out)
}

#[test]
fn numbers_are_written_big_endian(rt: HostRuntime) -> Result<(), Fail> {
    assert_eq!(rt; write_numbers(rt.alloc())?.as_slice(), BYTES);
    Ok(())
}

/// The number of so many bytes at the front, and how many bytes are left.
fn number_at(bytes: &[u8], width: u8) -> (Option<u64>, usize) {
    let mut cur = Cur::new(bytes);
    let read = match width {
        1 => cur.u8().ok().map(|x| x as u64),
        2 => cur.u16().ok().map(|x| x as u64),
        4 => cur.u32().ok().map(|x| x as u64),
        _ => cur.u64().ok(),
    };
    (read, cur.left())
}

#[test]
fn numbers_are_read_big_endian_where_there_are_enough_bytes(rt: HostRuntime) {
    for (from, width, read, left) in [
        (0, 2, Some(8160), 15),
        (2, 1, Some(7), 14),
        (3, 4, Some(0x0102_0304), 10),
        (7, 8, Some(0xfffe_fdfc_fbfa_f9f8), 2),
        (15, 8, None, 2),
        (15, 4, None, 2),
        (16, 2, None, 1),
        (17, 1, None, 0),
    ] {
        assert_eq!(rt; number_at(&BYTES[from..], width), (read, left));
    }
}

fn piece_at(bytes: &[u8], n: usize) -> (Option<&[u8]>, usize) {
    let mut cur = Cur::new(bytes);
    (cur.take(n).ok(), cur.left())
}

#[test]
fn a_piece_is_read_where_there_are_enough_bytes(rt: HostRuntime) {
    for (n, read, left) in [
        (2, Some(b"hi".as_slice()), 0),
        (0, Some(b"".as_slice()), 2),
        (3, None, 2),
    ] {
        assert_eq!(rt; piece_at(b"hi", n), (read, left));
    }
}

fn write_counted(alloc: Global) -> Result<Vec<u8>, NoMemory> {
    let mut out = Vec::new(alloc);
    put_u8(&mut out, 9)?;
    put_counted(&mut out, b"hi")?;
    put_counted(&mut out, b"")?;
    Ok(out)
}

fn counted_at(bytes: &[u8]) -> (Option<&[u8]>, usize) {
    let mut cur = Cur::new(bytes);
    (cur.counted().ok(), cur.left())
}

#[test]
fn a_counted_list_stands_behind_its_length(rt: HostRuntime) -> Result<(), Fail> {
    assert_eq!(rt;
        write_counted(rt.alloc())?.as_slice(),
        b"\x09\0\0\0\x02hi\0\0\0\0".as_slice()
    );
    for (bytes, read, left) in [
        (b"\0\0\0\x02hi\0".as_slice(), Some(b"hi".as_slice()), 1),
        (b"\0\0\0\0".as_slice(), Some(b"".as_slice()), 0),
        (b"\0\0\0\x03hi".as_slice(), None, 6),
        (b"\0\0\0".as_slice(), None, 3),
    ] {
        assert_eq!(rt; counted_at(bytes), (read, left));
    }
    Ok(())
}

/// The number of so many bytes in a range, and how many bytes are left.
fn number_within(bytes: &[u8], width: u8, low: u8, high: u8) -> (Option<u64>, usize) {
    let mut cur = Cur::new(bytes);
    let read = match width {
        1 => cur.u8_within(low, high).ok().map(|x| x as u64),
        4 => cur
            .u32_within(low as u32, high as u32)
            .ok()
            .map(|x| x as u64),
        _ => cur.u64_within(low as u64, high as u64).ok(),
    };
    (read, cur.left())
}

#[test]
fn a_number_outside_its_range_is_not_read(rt: HostRuntime) {
    for (width, low, high, read, left) in [
        (8, 0, 200, Some(100), 0),
        (8, 100, 100, Some(100), 0),
        (8, 0, 99, None, 8),
        (8, 101, 255, None, 8),
        (4, 0, 0, Some(0), 4),
        (4, 1, 255, None, 8),
        (1, 0, 0, Some(0), 7),
        (1, 1, 255, None, 8),
    ] {
        let bytes = b"\0\0\0\0\0\0\0\x64";
        assert_eq!(rt; number_within(bytes, width, low, high), (read, left));
    }
}

#[test]
fn a_sequence_keeps_and_gives_back_its_values(rt: HostRuntime) -> Result<(), Fail> {
    let hi = Bytes::of(b"hi".to_vec(rt.alloc())?);
    let same = hi.copy()?;
    assert!(rt; same == hi && same.len() == 2);
    assert_eq!(rt; same.into_vec().as_slice(), hi.as_slice());
    Ok(())
}
