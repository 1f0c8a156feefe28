//! Readers and writers of std as sources and sinks.

ghost use Rattle.std.specs.Prelude.{◌≡◌, None};

use crate::sink::{Failed, Sink};
use crate::source::{Source, Step};
use std::io::{Read, Write};
use std::marker::Model;

/// A reader of std as a source. It tells no bytes, and contracts see it as its count of failed
/// reads.
#[derive(Drop)]
pub struct StdSource<R> {
    inner: R,
    faults: u64,
}

impl<R> Model for StdSource<R> {
    ghost use Rattle.std.specs.Prelude.{ℕ};

    ghost Value = { ℕ };

    ghost view = { λ source. source.faults };
}

impl<R: Read> StdSource<R> {
    /// A source of what `inner` gives.
    pub fn new(inner: R) -> StdSource<R>
        ensures { result ≡ 0 }
    {
        StdSource { inner, faults: 0 }
    }
}

impl<R: Read> Source for StdSource<R> {
    ghost left = { λ _. None };

    ghost faults = { λ faults. faults };

    fn read(&mut self, into: &mut [u8]) -> Step {
        match self.inner.read(into) {
            Ok(0) => Step::End,
            Ok(count) => Step::Got(count),
            Err(_error) => {
                self.faults = self.faults.saturating_add(1);
                Step::Failed
            }
        }
    }
}

/// A writer of std as a sink. It tells no bytes, and contracts see it as its count of failed
/// writes.
#[derive(Drop)]
pub struct StdSink<W> {
    inner: W,
    faults: u64,
}

impl<W> Model for StdSink<W> {
    ghost use Rattle.std.specs.Prelude.{ℕ};

    ghost Value = { ℕ };

    ghost view = { λ sink. sink.faults };
}

impl<W: Write> StdSink<W> {
    /// A sink that hands on to `inner`.
    pub fn new(inner: W) -> StdSink<W>
        ensures { result ≡ 0 }
    {
        StdSink { inner, faults: 0 }
    }
}

impl<W: Write> Sink for StdSink<W> {
    ghost held = { λ _. None };

    ghost faults = { λ faults. faults };

    fn write(&mut self, bytes: &[u8]) -> Result<usize, Failed> {
        match self.inner.write(bytes) {
            Ok(count) if count > 0 || bytes.is_empty() => Ok(count),
            // A writer that takes none of some bytes will take none of them.
            _ => {
                self.faults = self.faults.saturating_add(1);
                Err(Failed)
            }
        }
    }
}

#[cfg(test)]
mod tests {
    use super::*;
    use crate::sink::Failed;
    use crate::transfer::{ReadEnd, WriteFault, read_all, write_all};
    use std::io;
    use std::io::ErrorKind;
    use std::test::Fail;

    /// Gives one byte a call, and fails once none is left.
    #[derive(Drop)]
    struct Breaking {
        left: u8,
    }

    impl Read for Breaking {
        fn read(&mut self, into: &mut [u8]) -> io::Result<usize> {
            if self.left == 0 || into.is_empty() {
                return Err(io::Error::from(ErrorKind::Other));
            }
            self.left -= 1;
            into[0] = b'x';
            Ok(1)
        }
    }

    /// Takes one byte a call, and then nothing more.
    #[derive(Drop)]
    struct Stopping {
        room: u8,
    }

    impl Write for Stopping {
        fn write(&mut self, bytes: &[u8]) -> io::Result<usize> {
            if self.room == 0 || bytes.is_empty() {
                return Ok(0);
            }
            self.room -= 1;
            Ok(1)
        }

        fn flush(&mut self) -> io::Result<()> {
            Ok(())
        }
    }

    #[test]
    fn reads_a_reader_of_std(rt: HostRuntime) -> Result<(), Fail> {
        let text: &[u8] = b"abcdef";
        let mut source = StdSource::new(text);
        let bytes = read_all(rt.alloc(), &mut source, 6).ok().ok_or("read")?;
        assert_eq!(rt; bytes.as_slice(), text);
        assert_eq!(rt; source.faults, 0);
        let mut broken = StdSource::new(Breaking { left: 3 });
        let refusal = read_all(rt.alloc(), &mut broken, 6).err();
        assert_eq!(rt; refusal, Some(ReadEnd::ReadFault));
        assert_eq!(rt; broken.faults, 1);
        Ok(())
    }

    #[test]
    fn writes_to_a_writer_of_std(rt: HostRuntime) -> Result<(), Fail> {
        let mut sink = StdSink::new(Vec::new(rt.alloc()));
        assert_eq!(rt; write_all(&mut sink, b"abcdef"), Ok(()));
        assert_eq!(rt; sink.inner.as_slice(), b"abcdef".as_slice());
        assert_eq!(rt; sink.faults, 0);
        let mut full = StdSink::new(Stopping { room: 3 });
        assert_eq!(rt; write_all(&mut full, b"abcdef"), Err(WriteFault));
        assert_eq!(rt; full.faults, 1);
        assert_eq!(rt; full.write(b""), Ok(0));
        assert_eq!(rt; full.write(b"a"), Err(Failed));
        assert_eq!(rt; full.faults, 2);
        Ok(())
    }

    fn both<T: Send + Sync>(_value: &T) {}

    #[test]
    fn streams_cross_threads() {
        both(&StdSource::new(Breaking { left: 0 }));
        both(&StdSink::new(Stopping { room: 0 }));
    }
}
