use commit_core::{Core, Settings};
use doc_values::{Bytes, Calls};
use sinew_app::{Status, sinew_in_memory, sinew_serial};
use sinew_io::{MemSink, MemSource, SureSink, SureSource};
use std::process::Abort;
use std::test::Fail;

const SMALLEST: &[u8] = b"1 LOAD t {\"a\":1}\n1 SELECT a FROM t\n";

const PRINTED: &[u8] = b"#1.1 @1\nok 1\n#1.2 @1\n[1]\nok 1\n= 1 1.1\n. 1\n";

/// Runs a script in memory, seven bytes a read, and compares the status and all that was written.
fn ends<R: Abort + AllocGlobal>(
    rt: &R,
    script: &[u8],
    status: Status,
    output: &[u8],
) -> Result<(), Fail> {
    let script = Bytes::from_vec(script.to_vec(rt.alloc())?);
    runs(rt, &mut SureSource::new(script, 7), status, output)
}

fn runs<R: Abort + AllocGlobal>(
    rt: &R,
    source: &mut SureSource,
    status: Status,
    output: &[u8],
) -> Result<(), Fail> {
    let mut store = Core::new(rt.alloc());
    let mut sink = SureSink::new(rt.alloc(), 200)?;
    let ended = sinew_in_memory(rt.alloc(), Settings::usual(), &mut store, source, &mut sink);
    assert_eq!(rt; sink.bytes(), output);
    assert_eq!(rt; ended, status);
    Ok(())
}

#[test]
fn a_run_in_memory_is_printed(rt: HostRuntime) -> Result<(), Fail> {
    ends(&rt, SMALLEST, Status::Done, PRINTED)?;
    ends(&rt, b"1 A\n\xff", Status::Script, b"? script 2 utf8\n")?;
    let long = Bytes::from_vec(vec![in rt.alloc(); b'\n'; 67_108_865]?);
    let mut source = SureSource::new(long, 65_536);
    runs(&rt, &mut source, Status::Script, b"? script 0 size\n")
}

/// Runs a script over devices, and compares the status, all that was written and the number of commits.
fn leaves<R: Abort + AllocGlobal>(
    rt: &R,
    source: &mut MemSource,
    sink: &mut MemSink,
    status: Status,
    output: &[u8],
    commits: u64,
) -> Result<(), Fail> {
    let mut store = Core::new(rt.alloc());
    let ended = sinew_serial(rt.alloc(), Settings::usual(), &mut store, source, sink);
    assert_eq!(rt; ended, status);
    assert_eq!(rt; sink.bytes(), output);
    assert_eq!(rt; store.now(), commits);
    Ok(())
}

/// Runs the smallest script over devices that fail at one call each: 8 bytes a read, 4 bytes a write.
fn fails<R: Abort + AllocGlobal>(
    rt: &R,
    read: u64,
    write: u64,
    status: Status,
    output: &[u8],
    commits: u64,
) -> Result<(), Fail> {
    let reads = Calls::from_vec(vec![in rt.alloc(); read]?);
    let writes = Calls::from_vec(vec![in rt.alloc(); write]?);
    let script = Bytes::from_vec(SMALLEST.to_vec(rt.alloc())?);
    let mut source = MemSource::new(script, 8, reads);
    let mut sink = MemSink::new(rt.alloc(), 100, 4, writes)?;
    leaves(rt, &mut source, &mut sink, status, output, commits)
}

/// Runs a script over a sink that takes one byte a write and fails at one of them.
fn breaks_off<R: Abort + AllocGlobal>(
    rt: &R,
    script: &[u8],
    write: u64,
    status: Status,
    output: &[u8],
    commits: u64,
) -> Result<(), Fail> {
    let reads = Calls::from_vec(Vec::new(rt.alloc()));
    let writes = Calls::from_vec(vec![in rt.alloc(); write]?);
    let script = Bytes::from_vec(script.to_vec(rt.alloc())?);
    let mut source = MemSource::new(script, 8, reads);
    let mut sink = MemSink::new(rt.alloc(), 100, 1, writes)?;
    leaves(rt, &mut source, &mut sink, status, output, commits)
}

#[test]
fn a_failing_device_ends_a_run(rt: HostRuntime) -> Result<(), Fail> {
    for read in 1..=6 {
        fails(&rt, read, 12, Status::Read, b"", 0)?;
    }
    for write in 1..=11u8 {
        let kept = PRINTED
            .get(..4 * (usize::from(write) - 1))
            .ok_or("there are 42 bytes")?;
        fails(&rt, 7, u64::from(write), Status::Write, kept, 1)?;
    }
    fails(&rt, 7, 12, Status::Done, PRINTED, 1)
}

#[test]
fn each_byte_may_be_wanting(rt: HostRuntime) -> Result<(), Fail> {
    let refusal = b"? script 1 session\n";
    for write in 1..=19u8 {
        let kept = refusal
            .get(..usize::from(write) - 1)
            .ok_or("there are 19 bytes")?;
        breaks_off(&rt, b"x", u64::from(write), Status::Write, kept, 0)?;
    }
    breaks_off(&rt, b"x", 20, Status::Script, refusal, 0)?;
    let kept = PRINTED.get(..41).ok_or("there are 42 bytes")?;
    breaks_off(&rt, SMALLEST, 42, Status::Write, kept, 1)?;
    breaks_off(&rt, SMALLEST, 43, Status::Done, PRINTED, 1)
}

#[test]
fn each_status_has_its_code(rt: HostRuntime) {
    let rows = [
        (Status::Done, 0),
        (Status::Words, 2),
        (Status::Script, 3),
        (Status::Read, 4),
        (Status::Write, 5),
        (Status::Memory, 6),
    ];
    for (status, code) in rows {
        assert_eq!(rt; status.code(), code);
    }
}
