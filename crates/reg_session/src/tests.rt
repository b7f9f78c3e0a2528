use super::*;
use std::alloc::Global;
use std::test::Fail;

fn one_file(alloc: Global) -> Result<Vec<(String, Vec<u8>)>, Fail> {
    let mut files = Vec::new(alloc);
    files.push((
        String::from_str(alloc, "a.txt")?,
        Vec::from_slice(alloc, b"abc")?,
    ))?;
    Ok(files)
}

#[test]
fn a_listed_shelf_fails_at_the_listed_calls(rt: HostRuntime) -> Result<(), Fail> {
    let fail = Vec::from_slice(rt.alloc(), &[1])?;
    let mut shelf = ListShelf::new(one_file(rt.alloc())?, fail);
    let mut into = Vec::new(rt.alloc());
    assert_eq!(rt; shelf.fetch("a.txt", &mut into, 3), Ok(()));
    assert_eq!(rt; into.as_slice(), b"abc".as_slice());
    assert_eq!(rt; shelf.fetch("a.txt", &mut into, 3), Err(FetchFault::Failed));
    assert_eq!(rt; into.len(), 0);
    assert_eq!(rt;
        shelf.fetch("b.txt", &mut into, 3),
        Err(FetchFault::Missing)
    );
    assert_eq!(rt;
        shelf.fetch("a.txt", &mut into, 2),
        Err(FetchFault::TooLong)
    );
    assert_eq!(rt; shelf.file("a.txt"), Some(b"abc".as_slice()));
    assert_eq!(rt; shelf.file("b.txt"), None);
    Ok(())
}

#[test]
fn a_put_replaces_the_bytes_of_a_file_or_adds_one(rt: HostRuntime) -> Result<(), Fail> {
    let mut shelf = ListShelf::new(one_file(rt.alloc())?, Vec::new(rt.alloc()));
    assert_eq!(rt; shelf.put("a.txt", b"d"), Ok(()));
    assert_eq!(rt; shelf.put("b.txt", b"xyz"), Ok(()));
    assert_eq!(rt; shelf.file("a.txt"), Some(b"d".as_slice()));
    assert_eq!(rt; shelf.file("b.txt"), Some(b"xyz".as_slice()));
    let mut sure = SureShelf::new(one_file(rt.alloc())?);
    assert_eq!(rt; sure.put("b.txt", b""), Ok(()));
    assert_eq!(rt; sure.put("a.txt", b"longer"), Ok(()));
    assert_eq!(rt; sure.file("a.txt"), Some(b"longer".as_slice()));
    assert_eq!(rt; sure.file("b.txt"), Some(b"".as_slice()));
    Ok(())
}

#[test]
fn calls_are_counted_over_fetches_and_puts(rt: HostRuntime) -> Result<(), Fail> {
    let fail = Vec::from_slice(rt.alloc(), &[1, 2])?;
    let mut shelf = ListShelf::new(one_file(rt.alloc())?, fail);
    let mut into = Vec::new(rt.alloc());
    assert_eq!(rt; shelf.fetch("a.txt", &mut into, 3), Ok(()));
    assert_eq!(rt; shelf.put("a.txt", b"d"), Err(PutFault::Failed));
    assert_eq!(rt; shelf.fetch("a.txt", &mut into, 3), Err(FetchFault::Failed));
    assert_eq!(rt; shelf.file("a.txt"), Some(b"abc".as_slice()));
    assert_eq!(rt; shelf.put("a.txt", b"d"), Ok(()));
    assert_eq!(rt; shelf.fetch("a.txt", &mut into, 3), Ok(()));
    assert_eq!(rt; into.as_slice(), b"d".as_slice());
    Ok(())
}

#[test]
fn a_sure_shelf_gives_what_it_has(rt: HostRuntime) -> Result<(), Fail> {
    let mut shelf = SureShelf::new(one_file(rt.alloc())?);
    let mut into = Vec::new(rt.alloc());
    assert_eq!(rt; shelf.fetch("a.txt", &mut into, 3), Ok(()));
    assert_eq!(rt;
        shelf.fetch("b.txt", &mut into, 3),
        Err(FetchFault::Missing)
    );
    assert_eq!(rt;
        shelf.fetch("a.txt", &mut into, 0),
        Err(FetchFault::TooLong)
    );
    assert_eq!(rt; shelf.file("a.txt"), Some(b"abc".as_slice()));
    Ok(())
}

#[test]
fn a_listed_sink_takes_a_few_bytes_a_call_and_stops(rt: HostRuntime) -> Result<(), Fail> {
    let mut sink = ListSink::new(Vec::with_capacity(rt.alloc(), 64)?, 2, 3);
    assert_eq!(rt; sink.put(b"abcd"), Ok(2));
    assert_eq!(rt; sink.put(b"cd"), Ok(1));
    assert_eq!(rt; sink.put(b"d"), Err(Failed));
    assert_eq!(rt; sink.bytes(), b"abc".as_slice());
    let mut sure = SureSink::new();
    assert_eq!(rt; sure.put(b"abcd"), Ok(4));
    Ok(())
}
