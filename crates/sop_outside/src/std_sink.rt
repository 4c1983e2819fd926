//! Standard output and standard error.
ghost use Rattle.std.specs.Prelude.{◌≡◌, None};

use crate::sink::{Failed, Sink};
use std::io::Print;
use std::marker::Model;

/// Standard output or standard error. It tells no bytes, and contracts see it as its count of faults.
#[derive(Drop)]
pub struct StdSink<P: Print> {
    stream: P,
    faults: u64,
}

impl<P: Print> Model for StdSink<P> {
    ghost use Rattle.std.specs.Prelude.{ℕ};

    ghost Value = { ℕ };

    ghost view = { λ s. s.faults };
}

impl<P: Print> StdSink<P> {
    /// A sink that writes to `stream`, of which no write has failed.
    pub fn new(stream: P) -> StdSink<P>
        ensures faults { result ≡ 0 }
    {
        StdSink { stream, faults: 0 }
    }
}

impl<P: Print> Sink for StdSink<P> {
    ghost told = { λ _. None };

    ghost faults = { λ s. s };

    /// Writes to the stream. A write that takes nothing of some bytes counts as a fault.
    fn write(&mut self, bytes: &[u8]) -> Result<usize, Failed> {
        match self.stream.write_some(bytes) {
            Ok(count) if count <= bytes.len() && (count > 0 || bytes.is_empty()) => Ok(count),
            _ => {
                self.faults = self.faults.saturating_add(1);
                Err(Failed)
            }
        }
    }
}
