ghost use Rattle.std.specs.Prelude.{◌≡◌, Some, None, unwrap_or, []};
ghost use Rattle.lwc_io.specs.Memory.{bytes_of};

use crate::log::{Asked, FetchLog};
use crate::memory::{NamedFile, bytes_named, copy_piece};
use crate::outside::{Failed, Files, Sink};
use std::marker::Model;

/// Files in memory whose fetches never fail: a name that was not given is an empty file.
#[derive(Drop)]
pub struct SureFiles {
    files: Vec<NamedFile>,
    log: FetchLog,
}

impl Model for SureFiles {
    ghost use Rattle.lwc_io.specs.Sure.{FilesThatNeverFail};

    ghost Value = { FilesThatNeverFail };

    ghost view = { λ s. record { files = s.files.items; fetches = s.log.fetches } };
}

impl SureFiles {
    /// These files; where two have one name, the first counts.
    pub fn new(files: Vec<NamedFile>) -> Self
        ensures { result ≡ record { files = files.items; fetches = [] } }
    {
        let log = FetchLog::new();
        SureFiles { files, log }
    }
}

impl Files for SureFiles {
    ghost seen = { λ state. record {
      contents = λ name. Some (unwrap_or (bytes_of state.files name) []);
      faults = λ _. 0;
      fetches = state.fetches;
    } };

    /// Reads as many bytes as the file has and the buffer takes. Never fails.
    fn fetch(&mut self, name: &str, at: u64, buffer: &mut [u8]) -> Result<usize, Failed> {
        let most = buffer.len();
        let bytes = bytes_named(&self.files, name).unwrap_or(&[]);
        let count = copy_piece(bytes, at, buffer);
        self.log = self.log.then(&Asked {
            name,
            at,
            most,
            given: Some(count),
        });
        Ok(count)
    }
}

/// A sink that takes each piece whole and keeps nothing of it. Its writes never fail.
#[derive(Clone, Copy, PartialEq, Eq, Default)]
pub struct SureSink;

impl Sink for SureSink {
    ghost seen = { λ _. record { taken = None; faults = 0 } };

    /// Takes the whole piece. Never fails.
    fn write(&mut self, piece: &[u8]) -> Result<usize, Failed> {
        Ok(piece.len())
    }
}
