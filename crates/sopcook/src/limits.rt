//! The limits of the program.

/// The bytes of a file that a node loads, 64 MiB.
pub const MOST_FILE_BYTES: u64 = 67_108_864;

/// The workers that the words may ask for.
pub const MOST_WORKERS: u64 = 64;

/// The digits of their number.
pub const MOST_WORKER_DIGITS: usize = 2;
