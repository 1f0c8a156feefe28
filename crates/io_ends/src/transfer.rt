//! All the bytes of a source, and all the bytes to a sink.

ghost use Rattle.std.specs.Prelude.{◌≡◌, ◌<◌, ◌≤◌, ◌++◌, length, IfOk, OnOk, OnErr, IfErr};
ghost use Rattle.std.specs.Io.KnownBytes.{Consumes, IsAtEnd, Appends};
ghost use Rattle.io_ends.specs.Counts.{CountsFailure};
ghost use Rattle.io_ends.specs.Ends.{IsOver, Gave, CountsRead, AppendsFront};
ghost use Rattle.io_ends.specs.declared.transfer.ReadEnd.TheVariants.{NoMemory as no_memory_end};

use crate::sink::Sink;
use crate::source::{Source, Step};
use compact_types::{Items, NoMemory};
use std::alloc::Global;

/// How many bytes one read may give.
const PIECE: usize = 16384;

/// Why the bytes of a source were not read to the end.
#[derive(Clone, Copy, Debug, PartialEq, Eq)]
pub enum ReadEnd {
    /// A read failed, which the source counted.
    ReadFault,
    /// The source gave more bytes than the limit.
    TooLong,
    NoMemory,
}

impl From<NoMemory> for ReadEnd {
    ghost from_gives = { λ _ end. end ≡ no_memory_end };

    fn from(_refused: NoMemory) -> ReadEnd {
        ReadEnd::NoMemory
    }
}

/// A write failed, which the sink counted.
#[derive(Clone, Copy, Debug, PartialEq, Eq)]
pub struct WriteFault;

/// All the bytes that the source has left, if they are at most `limit`.
pub fn read_all<S: Source>(
    alloc: Global,
    source: &mut S,
    limit: usize,
) -> Result<Items<u8>, ReadEnd>
    // All was read.
    ensures within { IfOk result (λ bytes. length bytes ≤ limit) }
    ensures all { IfOk result (λ bytes. Consumes (S.left source.old) (S.left source.new) bytes) }
    ensures end { OnOk result (IsAtEnd (S.left source.new)) }

    // What was given before the refusal, and more than the limit exactly where it is TooLong.
    ensures given { IfErr result
        (λ why. Gave why limit (S.left source.old) (S.left source.new)) }
    ensures counted { CountsRead result (S.faults source.old) (S.faults source.new) }
{
    let mut bytes = Items::new(alloc);
    let mut piece = [0u8; PIECE];
    loop {
        match source.read(&mut piece) {
            Step::Got(count) => add_within(&mut bytes, &piece[..count], limit)?,
            Step::End => return Ok(bytes),
            Step::Failed => return Err(ReadEnd::ReadFault),
        }
    }
}

/// Adds what was read, unless it makes more bytes than the limit.
fn add_within(bytes: &mut Items<u8>, read: &[u8], limit: usize) -> Result<(), ReadEnd>
    requires { length bytes.old ≤ limit }
    ensures added { OnOk result (bytes.new ≡ bytes.old ++ read.now) }
    ensures within { OnOk result (length bytes.new ≤ limit) }
    ensures over { IfErr result (λ why. IsOver why limit (bytes.old ++ read.now)) }
    ensures no_fault { IfErr result (λ why. why ≡ ReadEnd.ReadFault → ⊥) }
{
    if read.len() > limit - bytes.len() {
        return Err(ReadEnd::TooLong);
    }
    bytes.extend_from_slice(read)?;
    Ok(())
}

/// Writes all of `bytes`, in as many writes as the sink needs. It takes no memory.
pub fn write_all<K: Sink>(sink: &mut K, bytes: &[u8]) -> Result<(), WriteFault>
    ensures all { OnOk result (Appends (K.held sink.old) (K.held sink.new) bytes.now) }
    ensures front { OnErr result (AppendsFront (K.held sink.old) (K.held sink.new) bytes.now) }
    ensures counted { CountsFailure result (K.faults sink.old) (K.faults sink.new) }
{
    let mut at = 0;
    while at < bytes.len() {
        match sink.write(&bytes[at..]) {
            Ok(count) => at += count,
            Err(_failed) => return Err(WriteFault),
        }
    }
    Ok(())
}

#[cfg(test)]
mod tests {
    use super::*;
    use crate::memory_sink::MemorySink;
    use crate::memory_source::{MemorySource, PlainSource};
    use std::process::Abort;
    use std::test::Fail;

    const TEXT: &[u8] = b"abcdef";

    fn assert_read(
        rt: &impl Abort,
        alloc: Global,
        piece: usize,
        failing: &[u64],
        limit: usize,
        expected: Result<&[u8], ReadEnd>,
    ) -> Result<(), Fail>
        requires { 0 < piece }
    {
        let bytes = Vec::from_slice(alloc, TEXT)?;
        let mut source = MemorySource::new(bytes, piece, Vec::from_slice(alloc, failing)?);
        let read = read_all(alloc, &mut source, limit);
        let shown = match &read {
            Ok(bytes) => Ok(bytes.as_slice()),
            Err(end) => Err(*end),
        };
        assert_eq!(rt; shown, expected, "pieces of {piece}, limit {limit}");
        Ok(())
    }

    #[test]
    fn reads_all_or_says_why(rt: HostRuntime) -> Result<(), Fail> {
        let alloc = rt.alloc();
        // The limit.
        assert_read(&rt, alloc, 2, &[], 6, Ok(TEXT))?;
        assert_read(&rt, alloc, 9, &[], 6, Ok(TEXT))?;
        assert_read(&rt, alloc, 9, &[], usize::MAX, Ok(TEXT))?;
        assert_read(&rt, alloc, 2, &[], 5, Err(ReadEnd::TooLong))?;
        assert_read(&rt, alloc, 9, &[], 5, Err(ReadEnd::TooLong))?;
        assert_read(&rt, alloc, 9, &[], 0, Err(ReadEnd::TooLong))?;

        // Reads that fail: the first, one in mid-stream, the one that would be the end, one that is
        // never made.
        assert_read(&rt, alloc, 2, &[1], 6, Err(ReadEnd::ReadFault))?;
        assert_read(&rt, alloc, 2, &[3], 6, Err(ReadEnd::ReadFault))?;
        assert_read(&rt, alloc, 2, &[4], 6, Err(ReadEnd::ReadFault))?;
        assert_read(&rt, alloc, 2, &[5], 6, Ok(TEXT))?;

        // The earlier of two reasons.
        assert_read(&rt, alloc, 1, &[2], 1, Err(ReadEnd::ReadFault))?;
        assert_read(&rt, alloc, 1, &[3], 1, Err(ReadEnd::TooLong))
    }

    #[test]
    fn reads_plain_bytes(rt: HostRuntime) -> Result<(), Fail> {
        let all = read_all(rt.alloc(), &mut PlainSource::new(TEXT), 6)
            .ok()
            .ok_or("read")?;
        assert_eq!(rt; all.as_slice(), TEXT);
        let none = read_all(rt.alloc(), &mut PlainSource::new(b""), 0)
            .ok()
            .ok_or("read")?;
        assert_eq!(rt; none.len(), 0);
        Ok(())
    }

    fn assert_written(
        rt: &impl Abort,
        alloc: Global,
        room: usize,
        piece: usize,
        failing: &[u64],
        expected: Result<(), WriteFault>,
        held: &[u8],
    ) -> Result<(), Fail>
        requires { 0 < piece }
    {
        let failing = Vec::from_slice(alloc, failing)?;
        let mut sink = MemorySink::new(alloc, room, piece, failing)
            .ok()
            .ok_or("room")?;
        assert_eq!(rt;
            write_all(&mut sink, TEXT),
            expected,
            "room {room}, pieces of {piece}"
        );
        assert_eq!(rt; sink.bytes(), held, "room {room}, pieces of {piece}");
        Ok(())
    }

    #[test]
    fn writes_all_or_a_front(rt: HostRuntime) -> Result<(), Fail> {
        let alloc = rt.alloc();
        // The room.
        assert_written(&rt, alloc, 6, 2, &[], Ok(()), TEXT)?;
        assert_written(&rt, alloc, 9, 4, &[], Ok(()), TEXT)?;
        assert_written(&rt, alloc, 6, 9, &[], Ok(()), TEXT)?;
        assert_written(&rt, alloc, 5, 2, &[], Err(WriteFault), b"abcde")?;
        assert_written(&rt, alloc, 0, 2, &[], Err(WriteFault), b"")?;

        // Writes that fail: the first, one in mid-stream, one that is never made.
        assert_written(&rt, alloc, 6, 2, &[1], Err(WriteFault), b"")?;
        assert_written(&rt, alloc, 6, 2, &[3], Err(WriteFault), b"abcd")?;
        assert_written(&rt, alloc, 6, 2, &[4], Ok(()), TEXT)
    }

    #[test]
    fn an_empty_piece_needs_no_room(rt: HostRuntime) -> Result<(), Fail> {
        let alloc = rt.alloc();
        let failing = Vec::from_slice(alloc, &[2])?;
        let mut sink = MemorySink::new(alloc, 0, 1, failing).ok().ok_or("room")?;
        assert_eq!(rt; sink.write(b""), Ok(0));
        assert_eq!(rt; sink.write(b"").is_err(), true);
        assert_eq!(rt; write_all(&mut sink, b""), Ok(()));
        Ok(())
    }

    fn both<T: Send + Sync>(_value: &T) {}

    #[test]
    fn ends_cross_threads(rt: HostRuntime) -> Result<(), Fail> {
        let alloc = rt.alloc();
        both(&MemorySource::new(Vec::new(alloc), 1, Vec::new(alloc)));
        both(&PlainSource::new(TEXT));
        both(
            &MemorySink::new(alloc, 0, 1, Vec::new(alloc))
                .ok()
                .ok_or("room")?,
        );
        both(&(Step::End, ReadEnd::TooLong, WriteFault));
        Ok(())
    }
}
