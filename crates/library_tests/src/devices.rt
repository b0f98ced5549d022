use doc_values::{Bytes, Calls};
use sinew_io::{
    MemSink, MemSource, Source, StdSink, StdSource, SureSink, SureSource, TakeFault, Written,
    read_up_to, write_all_of,
};
use std::alloc::{AllocError, Global};
use std::io;
use std::io::{ErrorKind, Read};
use std::process::Abort;
use std::test::Fail;

const TEXT: &[u8] = b"twenty bytes of text";

fn bytes(alloc: Global, text: &[u8]) -> Result<Bytes, AllocError> {
    Ok(Bytes::from_vec(text.to_vec(alloc)?))
}

fn failing(alloc: Global, call: u64) -> Result<Calls, AllocError> {
    Ok(Calls::from_vec(vec![in alloc; call]?))
}

/// Reads up to the limit, and compares what was taken.
fn reads<R: Abort + AllocGlobal, S: Source>(
    rt: &R,
    source: &mut S,
    limit: u16,
    bytes: &[u8],
    more: bool,
) -> Result<(), TakeFault> {
    let taken = read_up_to(rt.alloc(), source, usize::from(limit))?;
    assert_eq!(rt; taken.bytes.items(), bytes);
    assert_eq!(rt; taken.more, more);
    Ok(())
}

#[test]
fn reading_stops_behind_the_limit(rt: HostRuntime) -> Result<(), Fail> {
    let rows: [(u16, &[u8], bool, &[u8]); 4] = [
        (0, b"", true, b"wenty bytes of text"),
        (19, b"twenty bytes of tex", true, b""),
        (20, b"twenty bytes of text", false, b""),
        (21, b"twenty bytes of text", false, b""),
    ];
    for (limit, first, more, rest) in rows {
        for piece in [1, 3, 5000] {
            assert!(rt; piece > 0);
            let mut source = SureSource::new(bytes(rt.alloc(), TEXT)?, piece);
            reads(&rt, &mut source, limit, first, more)?;
            reads(&rt, &mut source, 100, rest, false)?;
        }
    }
    let long = vec![in rt.alloc(); 7; 8193]?;
    let mut source = SureSource::new(bytes(rt.alloc(), &long)?, 5000);
    reads(&rt, &mut source, 8192, &long[..8192], true)?;
    Ok(())
}

#[test]
fn a_sink_keeps_what_it_has_room_for(rt: HostRuntime) -> Result<(), Fail> {
    let rows: [(usize, &[u8]); 4] = [(0, b""), (6, b"twenty"), (20, TEXT), (30, TEXT)];
    for (room, kept) in rows {
        let mut sink = SureSink::new(rt.alloc(), room)?;
        assert_eq!(rt; write_all_of(&mut sink, TEXT), Written::Done);
        assert_eq!(rt; sink.bytes(), kept);
    }
    Ok(())
}

#[test]
fn devices_fail_at_the_listed_call(rt: HostRuntime) -> Result<(), Fail> {
    let reading: [(u64, &[u8]); 4] = [
        (1, b"twenty bytes of text"),
        (2, b"ytes of text"),
        (3, b"text"),
        (4, b""),
    ];
    for (call, rest) in reading {
        let calls = failing(rt.alloc(), call)?;
        let mut source = MemSource::new(bytes(rt.alloc(), TEXT)?, 8, calls);
        assert_eq!(rt;
            reads(&rt, &mut source, 100, b"", false),
            Err(TakeFault::Failed)
        );
        reads(&rt, &mut source, 100, rest, false)?;
    }
    let writing: [(u64, Written, &[u8]); 4] = [
        (1, Written::Failed(0), b""),
        (2, Written::Failed(4), b"twen"),
        (5, Written::Failed(16), b"twenty bytes of "),
        (6, Written::Done, TEXT),
    ];
    for (call, written, kept) in writing {
        let mut sink = MemSink::new(rt.alloc(), 100, 4, failing(rt.alloc(), call)?)?;
        assert_eq!(rt; write_all_of(&mut sink, TEXT), written);
        assert_eq!(rt; sink.bytes(), kept);
    }
    Ok(())
}

/// A reader that gives one byte a call and then fails.
#[derive(Drop)]
struct Halting {
    left: u8,
}

impl Read for Halting {
    fn read(&mut self, buffer: &mut [u8]) -> io::Result<usize> {
        match (self.left, buffer) {
            (0, _) | (_, []) => Err(ErrorKind::Other.into()),
            (left, [first, ..]) => {
                *first = left;
                self.left = left - 1;
                Ok(1)
            }
        }
    }
}

#[test]
fn standard_readers_and_writers_are_devices(rt: HostRuntime) -> Result<(), Fail> {
    let mut source = StdSource::new(TEXT);
    reads(&rt, &mut source, 6, b"twenty", true)?;
    reads(&rt, &mut source, 100, b"bytes of text", false)?;

    let mut source = StdSource::new(Halting { left: 5 });
    reads(&rt, &mut source, 2, &[5, 4], true)?;
    assert_eq!(rt;
        reads(&rt, &mut source, 100, b"", false),
        Err(TakeFault::Failed)
    );

    let mut written = Vec::new(rt.alloc());
    assert_eq!(rt;
        write_all_of(&mut StdSink::new(&mut written), TEXT),
        Written::Done
    );
    assert_eq!(rt; written.as_slice(), TEXT);

    let mut short = [0; 6];
    let mut sink = StdSink::new(short.as_mut_slice());
    assert_eq!(rt; write_all_of(&mut sink, TEXT), Written::Failed(6));
    Ok(())
}
