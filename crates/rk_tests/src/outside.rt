ghost use Rattle.std.specs.Prelude.{◌≤◌, IfOk};

use crate::comparing::{same, same_in};
use rk_outside::{
    Failed, Gate, Lost, MemoryReplica, MemorySink, MemorySource, OpenGate, Point, ReadError,
    Replica, StdSink, StdSource, put_all, read_all,
};
use std::alloc::Global;
use std::io;
use std::io::{ErrorKind, Read, Write};
use std::process::Abort;
use std::test::Fail;

#[test]
fn reads_a_byte_at_a_time_up_to_the_limit(rt: HostRuntime) {
    for (limit, wanted) in [(4, Err(ReadError::TooLong)), (5, Ok(5)), (6, Ok(5))] {
        let mut source = MemorySource::new(b"hello").at_most(1);
        let read = read_all(rt.alloc(), limit, &mut source).map(|bytes| bytes.len());
        same_in(&rt, limit, &(read, source.faults()), &(wanted, 0));
    }
}

#[test]
fn a_failing_call_ends_the_reading_and_keeps_the_rest(rt: HostRuntime) -> Result<(), Fail> {
    let mut source = MemorySource::new(b"hello").at_most(2).failing(&[2]);
    same(
        &rt,
        &read_all(rt.alloc(), 9, &mut source).err(),
        &Some(ReadError::Failed),
    );
    same(&rt, &source.faults(), &1);
    let rest = read_all(rt.alloc(), 9, &mut source)?;
    same(&rt, &rest.as_slice(), &b"llo".as_slice());
    Ok(())
}

#[test]
fn writes_in_pieces_until_a_call_goes_wrong(rt: HostRuntime) -> Result<(), Fail> {
    let cases: [(usize, &[u64], &[u64], Result<(), Failed>, u64, &[u8]); 4] = [
        (5, &[], &[], Ok(()), 0, b"hello"),
        (5, &[3], &[], Err(Failed), 1, b"hell"),
        (5, &[], &[2], Err(Failed), 1, b"he"),
        (3, &[], &[], Err(Failed), 1, b"hel"),
    ];
    for (room, failing, idle, want, faults, written) in cases {
        let mut sink = MemorySink::new(rt.alloc(), room)?
            .at_most(2)
            .failing(failing)
            .taking_nothing(idle);
        let put = put_all(&mut sink, b"hello");
        same(
            &rt,
            &(put, sink.faults(), sink.bytes()),
            &(want, faults, written),
        );
    }
    Ok(())
}

// Adds two bytes to segment 7 of master 1, which is short.
fn append<R: Replica>(replica: &mut R, alloc: Global, bytes: &[u8; 2]) -> Result<(), Lost> {
    let at = replica.length(1, 7);
    if at > 9 {
        return Err(Lost::Failed);
    }
    replica.append(alloc, 1, 7, at, bytes)
}

// How many bytes are read of segment 7 of master 1, if it was ever written.
fn read<R: Replica>(replica: &mut R, alloc: Global) -> Result<Option<usize>, Lost> {
    let mut into = Vec::new(alloc);
    if !replica.read(alloc, 1, 7, &mut into)? {
        return Ok(None);
    }
    Ok(Some(into.len()))
}

fn keeps_segments<R: Replica + Send + Drop>(rt: &impl Abort, alloc: Global, mut replica: R) {
    same(rt, &read(&mut replica, alloc), &Ok(None));
    same(rt, &append(&mut replica, alloc, b"ab"), &Ok(()));
    same(rt, &append(&mut replica, alloc, b"cd"), &Ok(()));
    same(rt, &read(&mut replica, alloc), &Ok(Some(4)));
    for (master, segment, length) in [(1, 7, 4), (2, 7, 0), (1, 8, 0)] {
        same(rt, &replica.length(master, segment), &length);
    }
}

#[test]
fn a_replica_in_memory_keeps_what_is_appended(rt: HostRuntime) {
    keeps_segments(&rt, rt.alloc(), MemoryReplica::new(rt.alloc()));
}

#[test]
fn what_is_read_stands_behind_what_was_there(rt: HostRuntime) -> Result<(), Fail> {
    let mut replica = MemoryReplica::new(rt.alloc());
    append(&mut replica, rt.alloc(), b"ab")?;
    let mut into = b"<".to_vec(rt.alloc())?;
    same(&rt, &replica.read(rt.alloc(), 1, 7, &mut into), &Ok(true));
    same(&rt, &into.as_slice(), &b"<ab".as_slice());
    Ok(())
}

#[test]
fn a_failing_append_keeps_a_first_part_and_the_rest_makes_it_whole(rt: HostRuntime) {
    let mut replica = MemoryReplica::new(rt.alloc()).failing(&[1]).keeping(1);
    let lost = append(&mut replica, rt.alloc(), b"ab");
    same(&rt, &(lost, replica.length(1, 7)), &(Err(Lost::Failed), 1));
    let rest = append(&mut replica, rt.alloc(), b"bc");
    same(&rt, &(rest, replica.length(1, 7)), &(Ok(()), 3));
    same(&rt, &replica.faults(), &1);
}

#[test]
fn a_failing_read_is_counted(rt: HostRuntime) {
    let mut replica = MemoryReplica::new(rt.alloc()).failing(&[2]);
    same(&rt, &append(&mut replica, rt.alloc(), b"ab"), &Ok(()));
    same(&rt, &read(&mut replica, rt.alloc()), &Err(Lost::Failed));
    same(&rt, &read(&mut replica, rt.alloc()), &Ok(Some(2)));
    same(&rt, &replica.faults(), &1);
}

// A device of std, each call of which does the next of these things; it is at its end after them.
#[derive(Drop)]
struct Device<'a> {
    calls: &'a [Result<usize, ErrorKind>],
}

impl Device<'_> {
    fn count(&mut self, most: usize) -> io::Result<usize>
        ensures { IfOk result (λ count. count ≤ most) }
    {
        let Some((first, rest)) = self.calls.split_first() else {
            return Ok(0);
        };
        self.calls = rest;
        match first {
            Ok(count) => Ok(most.min(*count)),
            Err(kind) => Err(io::Error::from(*kind)),
        }
    }
}

impl Read for Device<'_> {
    fn read(&mut self, buf: &mut [u8]) -> io::Result<usize> {
        self.count(buf.len())
    }
}

impl Write for Device<'_> {
    fn write(&mut self, buf: &[u8]) -> io::Result<usize> {
        self.count(buf.len())
    }

    fn flush(&mut self) -> io::Result<()> {
        Ok(())
    }
}

// An interrupted call is tried again, and another error counts.
const CALLS: &[Result<usize, ErrorKind>] = &[
    Err(ErrorKind::Interrupted),
    Ok(2),
    Err(ErrorKind::Other),
    Ok(3),
    Ok(0),
];

#[test]
fn a_source_of_std_tries_an_interrupted_call_again(rt: HostRuntime) {
    let mut source = StdSource::new(Device { calls: CALLS });
    for wanted in [Err(ReadError::Failed), Ok(3)] {
        let read = read_all(rt.alloc(), 9, &mut source).map(|bytes| bytes.len());
        same(&rt, &(read, source.faults()), &(wanted, 1));
    }
}

#[test]
fn a_sink_of_std_tries_an_interrupted_call_again(rt: HostRuntime) {
    let mut sink = StdSink::new(Device { calls: CALLS });
    let rows: [(&[u8], Result<(), Failed>, u64); 4] = [
        (b"he", Ok(()), 0),
        (b"llo", Err(Failed), 1),
        (b"llo", Ok(()), 1),
        (b"!", Err(Failed), 2),
    ];
    for (bytes, wanted, faults) in rows {
        let put = put_all(&mut sink, bytes);
        same(&rt, &(put, sink.faults()), &(wanted, faults));
    }
}

#[test]
fn bytes_pass_through_std(rt: HostRuntime) -> Result<(), Fail> {
    let mut source = StdSource::new(b"hello".as_slice());
    let bytes = read_all(rt.alloc(), 5, &mut source)?;
    let mut written = Vec::new(rt.alloc());
    put_all(&mut StdSink::new(&mut written), bytes.as_slice())?;
    same(&rt, &written.as_slice(), &b"hello".as_slice());
    OpenGate.at(0, Point::ClientStep);
    Ok(())
}
