use super::*;
use std::alloc::{AllocError, Global};
use std::sync::Wait;
use std::test::Fail;
use std::thread::Threads;

mod images;
mod lines;
mod rounds;
mod sessions;
mod side;
mod workloads;

// Room for the output of a small run.
const ROOM: usize = 4096;

// What `top` answers, with no gate.
fn top_of<F: Shelf, K: Sink, R: Threads + Wait + Sync + AllocGlobal>(
    rt: &R,
    words: &Args,
    shelf: &mut F,
    sink: &mut K,
) -> u8 {
    let mut seals = no_seals();
    top(rt, rt.alloc(), words, shelf, sink, &NoGate, &mut seals)
}

// The words of a run of one file.
fn run_words(alloc: Global, name: &str) -> Result<Args, Fail> {
    words_of(alloc, &["run", name])
}

fn words_of(alloc: Global, list: &[&str]) -> Result<Args, Fail> {
    let mut words = Args::new(alloc);
    for word in list {
        words.push(word)?;
    }
    Ok(words)
}

// A shelf with the one file a.txt.
fn shelf_of(alloc: Global, text: &[u8], fail: &[u64]) -> Result<ListShelf, AllocError> {
    let mut files = Vec::new(alloc);
    files.push(("a.txt".to_string(alloc)?, Vec::from_slice(alloc, text)?))?;
    Ok(ListShelf::new(files, Vec::from_slice(alloc, fail)?))
}

// A sink that takes at most seven bytes a call, and fails once `stop` bytes are taken.
fn sink_of(alloc: Global, room: usize, stop: usize) -> Result<ListSink, AllocError> {
    Ok(ListSink::new(Vec::with_capacity(alloc, room)?, 7, stop))
}

// The status of a run of a.txt with this text, and what the sink has taken.
fn run_text<R: Threads + Wait + Sync + AllocGlobal>(
    rt: &R,
    text: &str,
) -> Result<(u8, String), Fail> {
    let alloc = rt.alloc();
    let mut shelf = shelf_of(alloc, text.as_bytes(), &[])?;
    let mut sink = sink_of(alloc, ROOM, usize::MAX)?;
    let status = top_of(rt, &run_words(alloc, "a.txt")?, &mut shelf, &mut sink);
    Ok((status, taken_text(alloc, &sink)?))
}

fn taken_text(alloc: Global, sink: &ListSink) -> Result<String, Fail> {
    Ok(
        std::str::from_utf8(sink.bytes())
            .ok()
            .ok_or("not text")?
            .to_string(alloc)?,
    )
}

const NEAR_TWO: &str =
    "declare ISCC:AAAQAAAAAAAAAAAA\ndeclare ISCC:AAAQAAAAAAAAAAAB\nnear ISCC:AAAQAAAAAAAAAAAA 1\n";

#[test]
fn a_query_finds_both_declarations_in_code_order(rt: HostRuntime) -> Result<(), Fail> {
    let want = "replies 0 0
id 0
id 1
hits 2 0,0,ISCC:AAAQAAAAAAAAAAAA 1,1,ISCC:AAAQAAAAAAAAAAAB
iscc-history 1
round 0 base 0 entries 4096 log 65536 callers 1
0.0 @1 declare ISCC:AAAQAAAAAAAAAAAA = id 0
0.1 @2 declare ISCC:AAAQAAAAAAAAAAAB = id 1
0.2 @2 near ISCC:AAAQAAAAAAAAAAAA 1 = hits 2 0,0,ISCC:AAAQAAAAAAAAAAAA 1,1,ISCC:AAAQAAAAAAAAAAAB
end 3 live 2
";
    let (status, output) = run_text(&rt, NEAR_TWO)?;
    assert_eq!(rt; status, 0);
    assert_eq!(rt; output.as_str(), want);
    Ok(())
}

#[test]
fn a_body_out_of_range_or_of_another_kind_is_no_hit(rt: HostRuntime) -> Result<(), Fail> {
    let cases = [
        (
            "declare ISCC:AAAQAAAAAAAAAAAB\nnear ISCC:AAAQAAAAAAAAAAAA 0\n",
            "replies 0 0\nid 0\nhits 0\niscc-history 1\n",
        ),
        (
            "declare ISCC:AAAQAAAAAAAAAAAA\nnear ISCC:EAAQAAAAAAAAAAAA 0\n",
            "replies 0 0\nid 0\nhits 0\niscc-history 1\n",
        ),
    ];
    for (text, replies) in cases {
        let (status, output) = run_text(&rt, text)?;
        assert_eq!(rt; status, 0);
        assert!(rt; output.as_str().starts_with(replies), "{output}");
    }
    Ok(())
}

#[test]
fn an_empty_line_is_skipped_and_a_last_line_needs_no_line_feed(
    rt: HostRuntime,
) -> Result<(), Fail> {
    let text = "\n\ndeclare ISCC:AAAQAAAAAAAAAAAA\n\nnear ISCC:AAAQAAAAAAAAAAAA 15";
    let (status, output) = run_text(&rt, text)?;
    assert_eq!(rt; status, 0);
    assert!(rt;
        output.as_str().starts_with(
            "replies 0 0\nid 0\nhits 1 0,0,ISCC:AAAQAAAAAAAAAAAA\niscc-history 1\n"
        )
    );
    let (_, nothing) = run_text(&rt, "")?;
    assert_eq!(rt;
        nothing.as_str(),
        "replies 0 0\niscc-history 1\nround 0 base 0 entries 4096 log 65536 callers 1\nend 0 live 0\n"
    );
    Ok(())
}

#[test]
fn the_last_entry_is_taken_and_one_more_declaration_is_refused(
    rt: HostRuntime,
) -> Result<(), Fail> {
    let alloc = rt.alloc();
    let mut text = Vec::new(alloc);
    for _ in 0..4097 {
        text.extend_from_slice(b"declare ISCC:AAAQAAAAAAAAAAAA\n")?;
    }
    let mut shelf = shelf_of(alloc, text.as_slice(), &[])?;
    let mut sink = ListSink::new(Vec::with_capacity(alloc, 1 << 20)?, 65536, usize::MAX);
    assert_eq!(rt;
        top_of(&rt, &run_words(alloc, "a.txt")?, &mut shelf, &mut sink),
        0
    );
    let output = taken_text(alloc, &sink)?;
    assert!(rt;
        output
            .as_str()
            .contains("\nid 4095\nfull entries 0\niscc-history 1\n")
    );
    let end = "\n0.4096 @4096 declare ISCC:AAAQAAAAAAAAAAAA = full entries 0\nend 4097 live 4096\n";
    assert!(rt; output.as_str().ends_with(end));
    Ok(())
}

#[test]
fn other_words_are_refused_before_anything_is_fetched(rt: HostRuntime) -> Result<(), Fail> {
    let alloc = rt.alloc();
    let lists: [&[&str]; 28] = [
        &[],
        &["run"],
        &["run", ""],
        &["run", "-"],
        &["run", "-a.txt"],
        &["run", "--help"],
        &["run", "/"],
        &["run", "a.txt", ""],
        &["Run", "a.txt"],
        &["help"],
        &["explain"],
        &["explain", ""],
        &["explain", "-"],
        &["explain", "AAA", "AAA"],
        &["compose"],
        &["compose", ""],
        &["compose", "AAAQAAAAAAAAAAAA", "-"],
        &["instance"],
        &["instance", ""],
        &["instance", "-"],
        &["instance", "a.txt", "a.txt"],
        &["check"],
        &["check", ""],
        &["check", "-"],
        &["check", "-x"],
        &["check", "a.txt", "a.txt"],
        &["Check", "a.txt"],
        &["a.txt"],
    ];
    for list in lists {
        let mut shelf = shelf_of(alloc, NEAR_TWO.as_bytes(), &[0])?;
        let mut sink = sink_of(alloc, ROOM, usize::MAX)?;
        assert_eq!(rt;
            top_of(&rt, &words_of(alloc, list)?, &mut shelf, &mut sink),
            2
        );
        assert_eq!(rt; taken_text(alloc, &sink)?.as_str(), "fault 2 words\n");
        // The shelf fails at its first call, which is still to come.
        let mut file = Vec::new(alloc);
        assert_eq!(rt; shelf.fetch("a.txt", &mut file, 9), Err(FetchFault::Failed));
    }
    Ok(())
}

#[test]
fn words_that_only_look_like_round_marks_name_files(rt: HostRuntime) -> Result<(), Fail> {
    let alloc = rt.alloc();
    let names = [
        "/home",
        "/5",
        "/:5",
        "/5:",
        "/+5:6",
        "/123456789012345678901:5",
        "/18446744073709551616:5",
        "//",
        ".",
    ];
    for name in names {
        let mut shelf = shelf_of(alloc, b"", &[])?;
        let mut sink = sink_of(alloc, ROOM, usize::MAX)?;
        assert_eq!(rt;
            top_of(&rt, &run_words(alloc, name)?, &mut shelf, &mut sink),
            3,
            "{name}"
        );
    }
    Ok(())
}

#[test]
fn a_missing_an_unread_and_an_overlong_file_are_told_by_their_names(
    rt: HostRuntime,
) -> Result<(), Fail> {
    let alloc = rt.alloc();
    let long = vec![in alloc; b'#'; (1 << 24) + 1]?;
    let cases: [(&str, &[u8], &[u64], u8, &str); 3] = [
        ("b.txt", b"", &[], 3, "fault 3 missing b.txt\n"),
        ("a.txt", b"", &[0], 4, "fault 4 read a.txt\n"),
        ("a.txt", long.as_slice(), &[], 7, "fault 7 too long a.txt\n"),
    ];
    for (name, text, fail, want, line) in cases {
        let mut shelf = shelf_of(alloc, text, fail)?;
        let mut sink = sink_of(alloc, ROOM, usize::MAX)?;
        assert_eq!(rt;
            top_of(&rt, &run_words(alloc, name)?, &mut shelf, &mut sink),
            want
        );
        assert_eq!(rt; taken_text(alloc, &sink)?.as_str(), line);
    }
    let mut longest = shelf_of(alloc, &long[1..], &[])?;
    let words = run_words(alloc, "a.txt")?;
    assert_eq!(rt; top_of(&rt, &words, &mut longest, &mut SureSink::new()), 0);
    assert_eq!(rt; longest.file("a.txt").map(<[u8]>::len), Some(1 << 24));
    Ok(())
}

#[test]
fn a_sink_that_fails_in_a_fault_line_leaves_the_status(rt: HostRuntime) -> Result<(), Fail> {
    let alloc = rt.alloc();
    let mut shelf = shelf_of(alloc, b"", &[])?;
    let mut sink = sink_of(alloc, ROOM, 10)?;
    assert_eq!(rt;
        top_of(&rt, &run_words(alloc, "b.txt")?, &mut shelf, &mut sink),
        3
    );
    assert_eq!(rt; taken_text(alloc, &sink)?.as_str(), "fault 3 mi");
    Ok(())
}

#[test]
fn a_sink_that_fails_has_a_front_of_the_output(rt: HostRuntime) -> Result<(), Fail> {
    let alloc = rt.alloc();
    let mut shelf = shelf_of(alloc, NEAR_TWO.as_bytes(), &[])?;
    let mut sink = sink_of(alloc, ROOM, 10)?;
    assert_eq!(rt;
        top_of(&rt, &run_words(alloc, "a.txt")?, &mut shelf, &mut sink),
        5
    );
    assert_eq!(rt; taken_text(alloc, &sink)?.as_str(), "replies 0 ");
    Ok(())
}

#[test]
fn a_shelf_that_never_fails_serves_the_same_run(rt: HostRuntime) -> Result<(), Fail> {
    let alloc = rt.alloc();
    let mut files = Vec::new(alloc);
    files.push((
        "a.txt".to_string(alloc)?,
        Vec::from_slice(alloc, NEAR_TWO.as_bytes())?,
    ))?;
    let mut shelf = SureShelf::new(files);
    let mut sink = sink_of(alloc, ROOM, usize::MAX)?;
    let words = run_words(alloc, "a.txt")?;
    assert_eq!(rt; words.len(), 2);
    assert_eq!(rt; top_of(&rt, &words, &mut shelf, &mut sink), 0);
    assert_eq!(rt; taken_text(alloc, &sink)?, run_text(&rt, NEAR_TWO)?.1);
    assert_eq!(rt; shelf.file("a.txt"), Some(NEAR_TWO.as_bytes()));
    assert!(rt; shelf.file("b.txt").is_none());
    Ok(())
}
