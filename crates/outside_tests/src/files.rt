ghost use Rattle.std.specs.Prelude.{◌==◌};
ghost use Rattle.std.specs.List.{IsDistinct};

use outside::{
    FileFault, Files, MemFiles, MemPoll, MemSink, PollFault, PollSet, RealFiles, RealSink, Sink,
    SinkFault,
};
use std::alloc::Global;
use std::path::PathBuf;
use std::test::Fail;
use std::{env, fs, process};

/// Whether a read gives these bytes.
fn reads<F: Files>(alloc: Global, files: &mut F, name: &str, max: u64, bytes: &[u8]) -> bool {
    matches!(&files.read(alloc, name, max), Ok(read) if read.as_slice() == bytes)
}

/// Why a read fails, if it does.
fn read_fault<F: Files>(alloc: Global, files: &mut F, name: &str, max: u64) -> Option<FileFault> {
    files.read(alloc, name, max).err()
}

/// Why a write fails, if it does.
fn write_fault<F: Files>(
    alloc: Global,
    files: &mut F,
    name: &str,
    bytes: &[u8],
) -> Option<FileFault> {
    files.write(alloc, name, &[bytes]).err()
}

/// Files of memory with one of three bytes.
fn three_bytes(alloc: Global) -> Result<MemFiles, Fail> {
    let mut files = MemFiles::new(alloc);
    files.hold("in.txt", b"abc")?;
    Ok(files)
}

/// Whether the read of this number is made to fail.
fn fails_read(files: &mut MemFiles, number: u64) -> bool {
    files.fail_read(number).is_ok()
}

/// Whether the write of this number is made to fail.
fn fails_write(files: &mut MemFiles, number: u64) -> bool {
    files.fail_write(number).is_ok()
}

#[test]
fn memory_files_give_back_what_was_written(rt: HostRuntime) -> Result<(), Fail> {
    let alloc = rt.alloc();
    let mut files = three_bytes(alloc)?;
    assert!(rt; joins_parts(alloc, &mut files, "parts.txt")?);
    assert!(rt; write_fault(alloc, &mut files, "out.txt", b"ab").is_none());
    assert!(rt; write_fault(alloc, &mut files, "in.txt", b"second").is_none());
    assert!(rt; reads(alloc, &mut files, "in.txt", 6, b"second"));
    assert!(rt; files.held("out.txt") == Some(b"ab".as_slice()));
    assert!(rt; read_fault(alloc, &mut files, "in.txt", 5) == Some(FileFault::Over));
    assert!(rt; read_fault(alloc, &mut files, "none", 5) == Some(FileFault::Missing));
    Ok(())
}

#[test]
fn memory_files_fail_at_the_calls_that_were_named(rt: HostRuntime) -> Result<(), Fail> {
    let alloc = rt.alloc();
    let mut files = three_bytes(alloc)?;
    assert!(rt; fails_read(&mut files, 1));
    assert!(rt; fails_write(&mut files, 0));
    assert!(rt; reads(alloc, &mut files, "in.txt", 3, b"abc"));
    assert!(rt; read_fault(alloc, &mut files, "in.txt", 3) == Some(FileFault::Failed));
    assert!(rt; reads(alloc, &mut files, "in.txt", 3, b"abc"));

    assert!(rt; write_fault(alloc, &mut files, "in.txt", b"z") == Some(FileFault::Failed));
    assert!(rt; write_fault(alloc, &mut files, "in.txt", b"z").is_none());
    Ok(())
}

/// Why a put fails, if it does.
fn put_fault<K: Sink>(sink: &mut K, bytes: &[u8]) -> Option<SinkFault> {
    sink.put(bytes).err()
}

/// Whether the put of this number is made to fail.
fn fails_put(sink: &mut MemSink, number: u64) -> bool {
    sink.fail_put(number).is_ok()
}

#[test]
fn a_memory_sink_fails_in_mid_stream(rt: HostRuntime) -> Result<(), Fail> {
    let mut sink = MemSink::new(rt.alloc());
    assert!(rt; fails_put(&mut sink, 1));
    sink.take_before_failing(2);
    assert!(rt; put_fault(&mut sink, b"ab").is_none());
    assert!(rt; put_fault(&mut sink, b"cdef") == Some(SinkFault::Failed));
    assert!(rt; put_fault(&mut sink, b"g").is_none());
    assert!(rt; sink.bytes() == b"abcdg".as_slice());
    Ok(())
}

/// A poll set of two rounds, whose fourth wait fails.
fn two_rounds(alloc: Global) -> Result<MemPoll, Fail> {
    let mut poll = MemPoll::new(alloc);
    poll.add_round(&[5, 1])?;
    poll.add_round(&[2])?;
    poll.fail_wait(3)?;
    Ok(poll)
}

/// What a wait answers.
fn waited(alloc: Global, poll: &mut MemPoll, armed: &[u32]) -> Result<Vec<u32>, PollFault>
    requires { IsDistinct (λ a b. a == b) armed.now }
{
    poll.wait(alloc, armed)
}

/// Whether a wait answers these events.
fn waits(alloc: Global, poll: &mut MemPoll, armed: &[u32], ready: &[u32]) -> bool
    requires { IsDistinct (λ a b. a == b) armed.now }
{
    matches!(&waited(alloc, poll, armed), Ok(events) if events.as_slice() == ready)
}

#[test]
fn a_memory_poll_set_goes_by_its_rounds(rt: HostRuntime) -> Result<(), Fail> {
    let alloc = rt.alloc();
    let mut poll = two_rounds(alloc)?;
    assert!(rt; waits(alloc, &mut poll, &[0, 1, 5], &[1, 5]));
    assert!(rt; waits(alloc, &mut poll, &[0, 1], &[]));
    assert!(rt; waits(alloc, &mut poll, &[1, 2], &[2]));
    assert!(rt; matches!(&waited(alloc, &mut poll, &[1, 2]), Err(PollFault::Failed)));
    assert!(rt; waits(alloc, &mut poll, &[0, 7], &[0, 7]));
    assert!(rt; poll.answered() == [1, 5, 2, 0, 7].as_slice());
    Ok(())
}

/// A file of this process alone, where temporary files lie.
fn file_name(rt: &HostRuntime) -> Result<PathBuf<Global>, Fail> {
    let mut path = env::temp_dir(rt)?;
    let id = process::id(rt.process());
    path.push(format!(in rt.alloc(); "outside-test-{id}")?)?;
    Ok(path)
}

/// Whether this file is removed.
fn removes(rt: &HostRuntime, name: &str) -> bool {
    fs::remove_file(rt, name).is_ok()
}

/// Whether small parts, one that is larger than any buffer and an empty one are read back joined.
fn joins_parts<F: Files>(alloc: Global, files: &mut F, name: &str) -> Result<bool, Fail> {
    let large = vec![in alloc; b'x'; 100000]?;
    let parts = [b"a".as_slice(), b"bc", large.as_slice(), b"", b"d"];
    let mut joined = Vec::from_slice(alloc, b"abc")?;
    joined.extend_from_slice(large.as_slice())?;
    joined.push(b'd')?;
    Ok(
        files.write(alloc, name, &parts).is_ok()
            && reads(alloc, files, name, 100004, joined.as_slice()),
    )
}

#[test]
fn real_files_give_back_what_was_written(rt: HostRuntime) -> Result<(), Fail> {
    let alloc = rt.alloc();
    let path = file_name(&rt)?;
    let name = path.as_str();
    let mut files = RealFiles::new(rt.clone()?);
    assert!(rt; joins_parts(alloc, &mut files, name)?);
    assert!(rt; write_fault(alloc, &mut files, name, b"abc").is_none());
    assert!(rt; reads(alloc, &mut files, name, 3, b"abc"));
    assert!(rt; read_fault(alloc, &mut files, name, 2) == Some(FileFault::Over));
    assert!(rt; removes(&rt, name));

    assert!(rt; read_fault(alloc, &mut files, name, 3) == Some(FileFault::Failed));
    assert!(rt; read_fault(alloc, &mut files, "/", 3) == Some(FileFault::Failed));
    assert!(rt; write_fault(alloc, &mut files, "/dev/full", b"abc") == Some(FileFault::Failed));
    Ok(())
}

/// A file of at most eight bytes, as a caller reads it that knows the trait alone.
fn read_file<F: Files>(alloc: Global, files: &mut F) -> Option<Vec<u8>> {
    files.read(alloc, "in.txt", 8).ok()
}

/// Puts a file out, as a caller that knows the traits alone.
fn put_file<F: Files, K: Sink>(alloc: Global, files: &mut F, sink: &mut K) -> bool {
    match read_file(alloc, files) {
        Some(bytes) => put_fault(sink, bytes.as_slice()).is_none(),
        None => false,
    }
}

#[test]
fn a_file_is_read_and_put_out_by_the_traits_alone(rt: HostRuntime) -> Result<(), Fail> {
    let alloc = rt.alloc();
    let mut files = three_bytes(alloc)?;
    let mut sink = MemSink::new(alloc);
    assert!(rt; put_file(alloc, &mut files, &mut sink));
    assert!(rt; sink.bytes() == b"abc".as_slice());
    assert!(rt; !put_file(alloc, &mut RealFiles::new(rt.clone()?), &mut sink));
    assert!(rt; put_file(alloc, &mut files, &mut RealSink::new(rt.clone()?)));
    Ok(())
}

#[test]
fn a_put_to_the_real_sink_is_accepted(rt: HostRuntime) -> Result<(), Fail> {
    let mut sink = RealSink::new(rt.clone()?);
    assert!(rt; put_fault(&mut sink, b"put\n").is_none());
    Ok(())
}
