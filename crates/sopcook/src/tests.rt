//! Tests of runs whose loads and writes fail. Tables of runs that are answered stand in tests/cases.
use crate::run::run;
use sop_outside::{MemFiles, MemSink};
use std::alloc::{AllocError, Global};
use std::test::Fail;

const SCRIPT: &[u8] =
    b"echo 1\nopadd file f\nopparm f file a.obj\nopadd merge m\nopwire m 0 f\nopwire m 1 f\n";

/// What a run gave.
#[derive(Drop)]
struct Ran {
    status: u8,
    out: Vec<u8>,
    err: Vec<u8>,
}

/// Cooks node `m` of the script above over a file of a point. The load and the write to `out` with these numbers fail, from 1.
fn run_failing(alloc: Global, load: u64, write: u64) -> Result<Ran, AllocError> {
    let mut files = MemFiles::new(alloc);
    files.add("s", SCRIPT)?;
    files.add("a.obj", b"v 1 2 3\n")?;
    files.fail_at(load)?;
    let mut words = Vec::new(alloc);
    words.push(String::from_str(alloc, "s")?)?;
    words.push(String::from_str(alloc, "m")?)?;
    let mut out = MemSink::new(alloc, 100, 8)?;
    out.fail_at(write)?;
    let mut err = MemSink::new(alloc, 100, 8)?;
    let status = run(alloc, &words, &mut files, &mut out, &mut err);
    Ok(Ran {
        status,
        out: Vec::from_slice(alloc, out.bytes())?,
        err: Vec::from_slice(alloc, err.bytes())?,
    })
}

#[test]
fn what_fails_is_told(rt: HostRuntime) -> Result<(), Fail> {
    for (load, write, status, out, err) in [
        (0, 0, 0, &b"v 1 2 3\nv 1 2 3\n"[..], &b"1\n"[..]),
        (1, 0, 5, b"", b"sopcook: read fault\n"),
        (2, 0, 5, b"", b"1\nsopcook: read fault\n"),
        (0, 2, 6, b"v 1 2 3\n", b"1\n"),
    ] {
        let ran = run_failing(rt.alloc(), load, write)?;
        assert_eq!(rt; ran.status, status);
        assert_eq!(rt; ran.out.as_slice(), out);
        assert_eq!(rt; ran.err.as_slice(), err);
    }
    Ok(())
}
