// Each public call once, and the contact with real files and streams.
use crate::{
    DiskFiles, Failed, Files, Gate, Items, LoadEnd, MemFiles, MemSink, OpenGate, StdSink, Text,
    TextList, put, words_of,
};
use std::collections::HashSet;
use std::fs;
use std::test::Fail;

fn text(rt: &HostRuntime, text: &str) -> Result<Text, Fail> {
    Ok(Text::from_string(String::from_str(rt.alloc(), text)?))
}

#[test]
fn items_are_changed_in_place(rt: HostRuntime) -> Result<(), Fail> {
    let mut names = TextList::new(rt.alloc());
    assert!(rt; names.is_empty());
    names.add(text(&rt, "first")?)?;
    let old = names.replace(0, text(&rt, "last")?);
    assert_eq!(rt; old.into_string().as_str(), "first");
    names.set(0, text(&rt, "other")?);
    assert_eq!(rt; names.get(0).as_str(), "other");
    Ok(())
}

#[test]
fn items_are_moved(rt: HostRuntime) -> Result<(), Fail> {
    let mut some = Items::with_capacity(rt.alloc(), 2)?;
    some.reserve(1)?;
    assert!(rt; some.push(7_u8).is_ok());
    let mut all = Items::from_vec(some.into_vec());
    let mut more = Items::new(rt.alloc());
    more.add(8)?;
    all.append(&mut more)?;
    assert_eq!(rt; (all.len(), more.len()), (2, 0));
    assert_eq!(rt; all.as_slice(), [7, 8].as_slice());
    assert_eq!(rt; all.pop(), Some(8));
    Ok(())
}

#[test]
fn lists_are_keys(rt: HostRuntime) -> Result<(), Fail> {
    let mut names = TextList::new(rt.alloc());
    names.add(Text::from_str(rt.alloc(), "same")?)?;
    let mut same = TextList::new(rt.alloc());
    same.add(text(&rt, "same")?)?;
    assert!(rt; names == same);
    let mut lists = HashSet::new(rt.alloc());
    assert!(rt; lists.insert(names)?);
    assert!(rt; lists.contains(&same));
    OpenGate.enter(7);
    Ok(())
}

#[test]
fn words_are_cut_at_blanks(rt: HostRuntime) -> Result<(), Fail> {
    let mut joined = Vec::new(rt.alloc());
    for word in words_of(b" \t one\rtwo\n\n3 ") {
        joined.extend_from_slice(word)?;
        joined.push(b'|')?;
    }
    assert_eq!(rt; joined.as_slice(), b"one|two|3|".as_slice());
    Ok(())
}

#[test]
fn files_and_sinks_in_memory(rt: HostRuntime) -> Result<(), Fail> {
    let mut files = MemFiles::new(rt.alloc());
    files.add("a", b"three")?;
    files.fail_at(2)?;
    let loaded = files
        .load(rt.alloc(), "a", 5)
        .expect(&rt, "a has five bytes");
    assert_eq!(rt; loaded.as_slice(), b"three".as_slice());
    assert_eq!(rt; files.load(rt.alloc(), "a", 5).err(), Some(LoadEnd::Failed));
    let mut sink = MemSink::new(rt.alloc(), 5, 2)?;
    sink.fail_at(1)?;
    assert_eq!(rt; put(&mut sink, b"abc"), Err(Failed));
    assert_eq!(rt; put(&mut sink, b"abc"), Ok(()));
    assert_eq!(rt; put(&mut sink, b"def"), Err(Failed));
    assert_eq!(rt; sink.bytes(), b"abcde".as_slice());
    Ok(())
}

#[test]
fn files_of_the_system_are_loaded_whole(rt: HostRuntime) -> Result<(), Fail> {
    fs::write(&rt, "outside_test_file", b"vertex")?;
    let mut files = DiskFiles::new(&rt);
    let loaded = files
        .load(rt.alloc(), "outside_test_file", 6)
        .expect(&rt, "the file has six bytes");
    assert_eq!(rt; loaded.as_slice(), b"vertex".as_slice());
    assert_eq!(rt;
        files.load(rt.alloc(), "outside_test_file", 5).err(),
        Some(LoadEnd::TooLong)
    );
    assert_eq!(rt;
        files.load(rt.alloc(), "outside_no_file", 6).err(),
        Some(LoadEnd::Missing)
    );
    assert_eq!(rt; files.load(rt.alloc(), ".", 6).err(), Some(LoadEnd::Failed));
    fs::remove_file(&rt, "outside_test_file")?;
    Ok(())
}

#[test]
fn standard_output_takes_all(rt: HostRuntime) {
    assert_eq!(rt; put(&mut StdSink::new(rt), b"written by a test\n"), Ok(()));
}
