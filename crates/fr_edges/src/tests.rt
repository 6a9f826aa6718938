use super::*;
use fr_bytes::Bytes;
use std::alloc::{AllocError, Global};
use std::io;
use std::test::*;

fn read_by<S: Source>(source: &mut S, buf: &mut [u8]) -> Result<usize, Failed> {
    source.read(buf)
}

fn write_by<K: Sink>(sink: &mut K, bytes: &[u8]) -> Result<usize, Failed> {
    sink.write(bytes)
}

fn carry_by<W: Wire>(
    wire: &mut W,
    request: &[u8],
    reply: &[u8],
    out: &mut Vec<u8>,
) -> Result<(), CarryEnd> {
    wire.carry(request, reply, out)
}

fn numbers(alloc: Global, list: &[u32]) -> Result<Vec<u32>, AllocError> {
    list.to_vec(alloc)
}

#[test]
fn a_source_in_memory_gives_pieces_and_fails_where_it_must(rt: HostRuntime) -> Result<(), Fail> {
    let mut source = MemSource::new(b"hello".to_vec(rt.alloc())?, 3, numbers(rt.alloc(), &[2])?);
    let mut buf = [0; 4];
    let wanted = [
        (Ok(3), *b"hel\0"),
        (Err(Failed), *b"hel\0"),
        (Ok(2), *b"lol\0"),
        (Ok(0), *b"lol\0"),
    ];
    for want in wanted {
        assert_eq!(rt; (read_by(&mut source, &mut buf), buf), want);
    }
    Ok(())
}

#[test]
fn a_sink_in_memory_takes_pieces_and_fails_where_it_must(rt: HostRuntime) -> Result<(), Fail> {
    let mut sink = MemSink::new(rt.alloc(), 3, numbers(rt.alloc(), &[2])?);
    let wanted = [
        (b"hello".as_slice(), Ok(3)),
        (b"lo".as_slice(), Err(Failed)),
        (b"lo".as_slice(), Ok(2)),
        (b"".as_slice(), Ok(0)),
    ];
    for (bytes, want) in wanted {
        assert_eq!(rt; write_by(&mut sink, bytes), want);
    }
    assert_eq!(rt; sink.written(), b"hello".as_slice());
    Ok(())
}

/// A carry's request and reply, and what is delivered, where it isn't lost.
type Carry = (&'static [u8], &'static [u8], Option<&'static [u8]>);

/// The second carry delivers a replacement, and the third is lost.
const CARRIES: [Carry; 4] = [
    (b"a", b"one", Some(b"one")),
    (b"b", b"two", Some(b"other")),
    (b"c", b"three", None),
    (b"d", b"four", Some(b"four")),
];

fn wire_of_carries(alloc: Global) -> Result<MemWire, Fail> {
    let mut replies = Vec::new(alloc);
    replies.push(None)?;
    replies.push(Some(Bytes::of(b"other".to_vec(alloc)?)))?;
    Ok(MemWire::new(alloc, replies, numbers(alloc, &[3])?))
}

// What a carry delivers, or why nothing.
fn delivery<'a, W: Wire>(
    wire: &mut W,
    request: &[u8],
    reply: &[u8],
    out: &'a mut Vec<u8>,
) -> Result<&'a [u8], CarryEnd> {
    carry_by(wire, request, reply, out)?;
    Ok(out.as_slice())
}

#[test]
fn a_wire_in_memory_replaces_and_loses(rt: HostRuntime) -> Result<(), Fail> {
    let mut wire = wire_of_carries(rt.alloc())?;
    let mut out = Vec::new(rt.alloc());
    for (request, reply, delivered) in CARRIES {
        assert_eq!(rt;
            delivery(&mut wire, request, reply, &mut out),
            delivered.ok_or(CarryEnd::Lost)
        );
    }
    Ok(())
}

#[test]
fn a_wire_in_memory_tells_what_it_carried(rt: HostRuntime) -> Result<(), Fail> {
    let mut wire = wire_of_carries(rt.alloc())?;
    let mut out = Vec::new(rt.alloc());
    for (request, reply, _) in CARRIES {
        let _ = carry_by(&mut wire, request, reply, &mut out);
    }
    assert_eq!(rt; wire.carried().len(), CARRIES.len());
    for (entry, carry) in wire.carried().iter().zip(CARRIES) {
        let delivered = entry.delivered.as_ref().map(|bytes| bytes.as_slice());
        assert_eq!(rt;
            (entry.request.as_slice(), entry.reply.as_slice(), delivered),
            carry
        );
    }
    Ok(())
}

#[test]
fn a_straight_wire_delivers_the_reply(rt: HostRuntime) -> Result<(), Fail> {
    let mut out = b"old".to_vec(rt.alloc())?;
    assert_eq!(rt;
        delivery(&mut Straight, b"ask", b"answer", &mut out),
        Ok(b"answer".as_slice())
    );
    Ok(())
}

/// What a reader of std does at one read: it gives these bytes, errs, or is at its end.
#[derive(Clone, Copy)]
enum Gives {
    These(&'static [u8]),
    Errs,
    End,
}

/// A reader that does these things, one after the other, and is then at its end.
#[derive(Drop)]
struct Giving {
    gives: [Gives; 5],
    reads: usize,
}

impl io::Read for Giving {
    fn read(&mut self, buf: &mut [u8]) -> io::Result<usize> {
        let gives = self.gives.get(self.reads).copied().unwrap_or(Gives::End);
        self.reads = self.reads.saturating_add(1);
        match gives {
            Gives::These(bytes) => {
                let n = bytes.len().min(buf.len());
                buf[..n].copy_from_slice(&bytes[..n]);
                Ok(n)
            }
            Gives::Errs => Err(io::Error::from(io::ErrorKind::Other)),
            Gives::End => Ok(0),
        }
    }
}

#[test]
fn a_reader_of_std_is_a_source_whose_errors_are_faults(rt: HostRuntime) {
    let gives = [
        Gives::These(b"hi"),
        Gives::Errs,
        Gives::These(b"!"),
        Gives::Errs,
        Gives::End,
    ];
    let mut source = StdSource::new(Giving { gives, reads: 0 });
    let mut buf = [0; 4];
    let wanted = [
        (Ok(2), *b"hi\0\0"),
        (Err(Failed), *b"hi\0\0"),
        (Ok(1), *b"!i\0\0"),
        (Err(Failed), *b"!i\0\0"),
        (Ok(0), *b"!i\0\0"),
    ];
    for want in wanted {
        assert_eq!(rt; (read_by(&mut source, &mut buf), buf), want);
    }
}

/// A writer that keeps what it takes: two bytes, then nothing, then it errs, then two bytes at each write.
#[derive(Drop)]
struct Keeping {
    writes: u8,
    kept: Vec<u8>,
}

impl io::Write for Keeping {
    fn write(&mut self, bytes: &[u8]) -> io::Result<usize> {
        self.writes = self.writes.saturating_add(1);
        let taken = match self.writes {
            2 => 0,
            3 => return Err(io::Error::from(io::ErrorKind::Other)),
            _ => bytes.len().min(2),
        };
        match self.kept.extend_from_slice(&bytes[..taken]) {
            Ok(()) => Ok(taken),
            Err(_) => Err(io::Error::from(io::ErrorKind::OutOfMemory)),
        }
    }

    fn flush(&mut self) -> io::Result<()> {
        Ok(())
    }
}

#[test]
fn a_writer_of_std_is_a_sink_that_gets_each_byte_once(rt: HostRuntime) {
    let mut kept = Keeping {
        writes: 0,
        kept: Vec::new(rt.alloc()),
    };
    let mut sink = StdSink::new(&mut kept);
    let wanted = [
        (b"hey".as_slice(), Ok(2)),
        (b"y".as_slice(), Err(Failed)),
        (b"y".as_slice(), Err(Failed)),
        (b"y you".as_slice(), Ok(2)),
        (b"".as_slice(), Ok(0)),
        (b"you".as_slice(), Ok(2)),
        (b"u".as_slice(), Ok(1)),
    ];
    for (bytes, want) in wanted {
        assert_eq!(rt; write_by(&mut sink, bytes), want);
    }
    drop(sink);
    assert_eq!(rt; kept.kept.as_slice(), b"hey you".as_slice());
}
