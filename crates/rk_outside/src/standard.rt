// Sources and sinks over std's readers and writers. They pass on what their device shows; std's standard
// streams show nothing, and are the trusted edge.
ghost use Rattle.std.specs.Prelude.{ℕ, ◌≡◌};
ghost use Rattle.std.specs.Io.{ReadsAtMost, WritesAtMost};
ghost use Rattle.std.specs.Io.KnownBytes.{ReadConsumes, WriteAppends};

use crate::fault::Failed;
use crate::sink::Sink;
use crate::source::Source;
use std::io::{ErrorKind, Read, Write};
use std::marker::Model;

/// A source over a reader of std. It shows what the reader shows, which is nothing for a file or a
/// stream of the system.
#[derive(Drop)]
pub struct StdSource<R> {
    reader: R,
    faults: u64,
}

impl<R> Model for StdSource<R> {
    ghost use Rattle.rk_outside.specs.Adapters.{Adapter};

    ghost Value = { Adapter R };

    ghost view = { λ s. record { device = s.reader; faults = s.faults } };
}

impl<R> StdSource<R> {
    /// A source over this reader, with no fault so far.
    pub fn new(reader: R) -> StdSource<R>
        ensures { result ≡ record { device = reader; faults = 0 } }
    {
        StdSource { reader, faults: 0 }
    }

    /// How often the reader failed.
    pub fn faults(&self) -> u64
        ensures { result ≡ self.now.faults }
    {
        self.faults
    }
}

// One read, tried again when a signal interrupted it.
fn read_retrying<R: Read>(reader: &mut R, into: &mut [u8]) -> Result<usize, Failed>
    ensures within { ReadsAtMost result into.new }
    ensures bytes { ReadConsumes (R.remaining reader.old) (R.remaining reader.new) result into.new }
{
    'tries: for _ in 0..u64::MAX {
        match reader.read(into) {
            Ok(count) => return Ok(count),
            Err(e) => {
                if e.kind() != ErrorKind::Interrupted {
                    return Err(Failed);
                }
            }
        }
    }
    Err(Failed)
}

impl<R: Read> Source for StdSource<R> {
    ghost left = { λ s. R.remaining s.device };

    ghost faults = { λ s. s.faults };

    fn next(&mut self, into: &mut [u8]) -> Result<usize, Failed> {
        match read_retrying(&mut self.reader, into) {
            Ok(count) => Ok(count),
            Err(failed) => {
                self.faults = self.faults.saturating_add(1);
                Err(failed)
            }
        }
    }
}

/// A sink over a writer of std. It shows what the writer shows, which is nothing for a file or a
/// stream of the system. It does not flush.
#[derive(Drop)]
pub struct StdSink<W> {
    writer: W,
    faults: u64,
}

impl<W> Model for StdSink<W> {
    ghost use Rattle.rk_outside.specs.Adapters.{Adapter};

    ghost Value = { Adapter W };

    ghost view = { λ s. record { device = s.writer; faults = s.faults } };
}

impl<W> StdSink<W> {
    /// A sink over this writer, with no fault so far.
    pub fn new(writer: W) -> StdSink<W>
        ensures { result ≡ record { device = writer; faults = 0 } }
    {
        StdSink { writer, faults: 0 }
    }

    /// How often the writer failed or took nothing.
    pub fn faults(&self) -> u64
        ensures { result ≡ self.now.faults }
    {
        self.faults
    }
}

// One write, tried again when a signal interrupted it.
fn write_retrying<W: Write>(writer: &mut W, piece: &[u8]) -> Result<usize, Failed>
    ensures within { WritesAtMost result piece.now }
    ensures bytes { WriteAppends (W.contents writer.old) (W.contents writer.new) result piece.now }
{
    'tries: for _ in 0..u64::MAX {
        match writer.write(piece) {
            Ok(count) => return Ok(count),
            Err(e) => {
                if e.kind() != ErrorKind::Interrupted {
                    return Err(Failed);
                }
            }
        }
    }
    Err(Failed)
}

impl<W: Write> Sink for StdSink<W> {
    ghost written = { λ s. W.contents s.device };

    ghost faults = { λ s. s.faults };

    fn put(&mut self, piece: &[u8]) -> Result<usize, Failed> {
        match write_retrying(&mut self.writer, piece) {
            Ok(count) if count > 0 || piece.is_empty() => Ok(count),
            refused => {
                self.faults = self.faults.saturating_add(1);
                refused
            }
        }
    }
}
