use super::*;
use reg_top::{FetchFault, ListSink, NoGate, PutFault, Shelf, no_seals, top};
use std::fs;
use std::rt::Files;
use std::sync::Wait;
use std::test::Fail;
use std::thread::Threads;

// The status of a run of the system's file with this name, and what the sink has taken.
fn run_file<R: Files + Threads + Wait + Sync + AllocGlobal>(
    rt: &R,
    name: &str,
) -> Result<(u8, ListSink), Fail> {
    let mut words = Args::new(rt.alloc());
    words.push("run")?;
    words.push(name)?;
    let mut shelf = FileShelf::new(rt);
    let mut sink = ListSink::new(Vec::with_capacity(rt.alloc(), 256)?, 256, 256);
    let mut seals = no_seals();
    let status = top(
        rt,
        rt.alloc(),
        &words,
        &mut shelf,
        &mut sink,
        &NoGate,
        &mut seals,
    );
    Ok((status, sink))
}

#[test]
fn a_missing_file_gives_3(rt: HostRuntime) -> Result<(), Fail> {
    let (status, sink) = run_file(&rt, "no such file")?;
    assert_eq!(rt; status, 3);
    assert_eq!(rt; sink.bytes(), b"fault 3 missing no such file\n".as_slice());
    Ok(())
}

#[test]
fn a_folder_gives_4(rt: HostRuntime) -> Result<(), Fail> {
    let (status, sink) = run_file(&rt, ".")?;
    assert_eq!(rt; status, 4);
    assert_eq!(rt; sink.bytes(), b"fault 4 read .\n".as_slice());
    Ok(())
}

// The special file has no end.
#[test]
fn a_file_above_the_limit_gives_7(rt: HostRuntime) -> Result<(), Fail> {
    let (status, sink) = run_file(&rt, "/dev/zero")?;
    assert_eq!(rt; status, 7);
    assert_eq!(rt; sink.bytes(), b"fault 7 too long /dev/zero\n".as_slice());
    Ok(())
}

// The file is made in the folder where the tests run, and removed at the end.
#[test]
fn a_file_that_is_put_is_fetched_with_its_last_bytes(rt: HostRuntime) -> Result<(), Fail> {
    let name = "put-by-a-test.txt";
    let mut shelf = FileShelf::new(&rt);
    let mut into = Vec::new(rt.alloc());
    assert_eq!(rt; shelf.put(name, b"some bytes"), Ok(()));
    assert_eq!(rt; shelf.fetch(name, &mut into, 64), Ok(()));
    assert_eq!(rt; into.as_slice(), b"some bytes".as_slice());
    assert_eq!(rt; shelf.put(name, b"few"), Ok(()));
    assert_eq!(rt; shelf.fetch(name, &mut into, 64), Ok(()));
    assert_eq!(rt; into.as_slice(), b"few".as_slice());
    fs::remove_file(&rt, name)?;
    assert_eq!(rt; shelf.fetch(name, &mut into, 64), Err(FetchFault::Missing));
    Ok(())
}

// No bytes can be written to a folder, in a folder that isn't there, or to the special file that is always full.
#[test]
fn what_cannot_be_written_fails(rt: HostRuntime) -> Result<(), Fail> {
    let mut shelf = FileShelf::new(&rt);
    assert_eq!(rt; shelf.put(".", b"abc"), Err(PutFault::Failed));
    assert_eq!(rt;
        shelf.put("no such folder/a.txt", b"abc"),
        Err(PutFault::Failed)
    );
    assert_eq!(rt; shelf.put("/dev/full", b"abc"), Err(PutFault::Failed));
    Ok(())
}
