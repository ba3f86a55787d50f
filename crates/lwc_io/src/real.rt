ghost use Rattle.std.specs.Prelude.{◌≡◌, ◌<◌, ◌≤◌, [], None, length, IfOk, OnOk, OnErr};
ghost use Rattle.lwc_io.specs.Outside.{given_by, incremented, with_fetch};
ghost use Rattle.std.specs.Io.KnownBytes.{WriteAppends};

use crate::log::{Asked, FetchLog};
use crate::outside::{Failed, Files, Sink};
use std::fs::File;
use std::io::{self, ErrorKind, Read, Seek, SeekFrom, Write};
use std::marker::Model;
use std::rt;

/// The files of the system, by their paths. Their contents are not known.
#[derive(Drop)]
pub struct RealFiles<R> {
    rt: R,
    // Of all names together.
    faults: u64,
    log: FetchLog,
}

impl<R> Model for RealFiles<R> {
    ghost use Rattle.lwc_io.specs.Real.{SystemFiles};

    ghost Value = { SystemFiles R };

    ghost view = { λ files. record {
      runtime = files.rt;
      faults = files.faults;
      fetches = files.log.fetches;
    } };
}

impl<R: rt::Files> RealFiles<R> {
    /// The files that the runtime reaches.
    pub fn new(rt: R) -> Self
        ensures { result ≡ record { runtime = rt; faults = 0; fetches = [] } }
    {
        RealFiles {
            rt,
            faults: 0,
            log: FetchLog::new(),
        }
    }

    /// Opens the file anew and reads one piece.
    fn read_piece(&self, name: &str, at: u64, buffer: &mut [u8]) -> io::Result<usize>
        ensures { IfOk result (λ n. n ≤ length buffer.new) }
    {
        let mut file = File::open(&self.rt, name)?;
        file.seek(SeekFrom::Start(at))?;
        read_some(&mut file, buffer)
    }
}

/// One read, tried again where a signal interrupts it.
fn read_some<R: Read>(reader: &mut R, buffer: &mut [u8]) -> io::Result<usize>
    ensures { IfOk result (λ n. n ≤ length buffer.new) }
{
    for _ in 0..u64::MAX {
        match reader.read(buffer) {
            Err(error) if error.kind() == ErrorKind::Interrupted => {}
            outcome => return outcome,
        }
    }
    Err(io::Error::from(ErrorKind::Interrupted))
}

impl<R: rt::Files> Files for RealFiles<R> {
    ghost seen = { λ files. record {
      contents = λ _. None;
      faults = λ _. files.faults;
      fetches = files.fetches;
    } };

    /// Opens the file and reads once at that offset. It may read less than the buffer takes.
    ///
    /// # Errors
    ///
    /// `Failed` if the system fails to open, seek or read, as for a name that no file has, and for a
    /// folder. It increments the count, which all names share.
    fn fetch(&mut self, name: &str, at: u64, buffer: &mut [u8]) -> Result<usize, Failed>
        ensures count { IfOk result (λ n. n ≤ length buffer.new) }
        ensures ok { OnOk result (self.new ≡ record self.old { fetches = self.new.fetches }) }
        ensures err { OnErr result (self.new ≡ record self.old {
          faults = incremented self.old.faults;
          fetches = self.new.fetches;
        }) }
        ensures never_decreases { self.old.faults ≤ self.new.faults }
        ensures logged { self.new.fetches
            ≡ with_fetch self.old.fetches name.now at buffer.old (given_by result) }
    {
        let most = buffer.len();
        let given = match self.read_piece(name, at, buffer) {
            Ok(count) => Some(count),
            Err(_) => None,
        };
        self.log = self.log.then(&Asked {
            name,
            at,
            most,
            given,
        });
        match given {
            Some(count) => Ok(count),
            None => {
                self.faults = self.faults.saturating_add(1);
                Err(Failed)
            }
        }
    }
}

/// A writer of the system. What it took is known where the writer's own contract knows it.
#[derive(Drop)]
pub struct RealSink<W> {
    writer: W,
    faults: u64,
}

/// One write, tried again where a signal interrupts it. It answers how many bytes the writer took.
fn write_some<W: Write>(writer: &mut W, piece: &[u8]) -> io::Result<usize>
    ensures count { IfOk result (λ n. n ≤ length piece.now) }
    ensures appended { WriteAppends (W.contents writer.old) (W.contents writer.new) result piece.now }
{
    for _ in 0..u64::MAX {
        match writer.write(piece) {
            Err(error) if error.kind() == ErrorKind::Interrupted => {}
            outcome => return outcome,
        }
    }
    Err(io::Error::from(ErrorKind::Interrupted))
}

impl<W> Model for RealSink<W> {
    ghost use Rattle.lwc_io.specs.Real.{SystemSink};

    ghost Value = { SystemSink W };

    ghost view = { λ sink. record { writer = sink.writer; faults = sink.faults } };
}

impl<W: Write> RealSink<W> {
    /// A sink that writes to the writer.
    pub fn new(writer: W) -> Self
        ensures { result ≡ record { writer = writer; faults = 0 } }
    {
        RealSink { writer, faults: 0 }
    }

    /// The writer, with all that it was given.
    pub fn into_inner(self) -> W
        ensures { result ≡ self.writer }
    {
        let RealSink { writer, faults: _ } = self;
        writer
    }
}

impl<W: Write> Sink for RealSink<W> {
    ghost seen = { λ sink. record { taken = None; faults = sink.faults } };

    /// Writes once. The writer may take less than the piece; the answer is how many bytes it took.
    ///
    /// # Errors
    ///
    /// `Failed` if the writer fails, or takes no byte of a piece that is not empty. It increments the count.
    fn write(&mut self, piece: &[u8]) -> Result<usize, Failed>
        ensures count { IfOk result (λ n. n ≤ length piece.now) }
        ensures some { IfOk result (λ n. 0 < length piece.now → 0 < n) }
        ensures appended { WriteAppends (W.contents self.old.writer) (W.contents self.new.writer) result
            piece.now }
        ensures ok { OnOk result (self.new.faults ≡ self.old.faults) }
        ensures err { OnErr result (self.new.faults ≡ incremented self.old.faults) }
        ensures never_decreases { self.old.faults ≤ self.new.faults }
    {
        match write_some(&mut self.writer, piece) {
            Ok(count) if count > 0 || piece.is_empty() => Ok(count),
            _ => {
                self.faults = self.faults.saturating_add(1);
                Err(Failed)
            }
        }
    }
}
