use super::*;

// The status of these words over a.txt with these bytes, and what the sink has taken.
fn side_text(
    alloc: Global,
    words: &[&str],
    file: &[u8],
    fail: &[u64],
) -> Result<(Option<u8>, String), Fail> {
    let mut shelf = shelf_of(alloc, file, fail)?;
    let mut sink = sink_of(alloc, ROOM, usize::MAX)?;
    let status = side(alloc, &words_of(alloc, words)?, &mut shelf, &mut sink);
    Ok((status, taken_text(alloc, &sink)?))
}

#[test]
fn a_code_is_explained_in_one_line(rt: HostRuntime) -> Result<(), Fail> {
    let want =
        "{\"bits\":64,\"body\":\"af1349b9f5f9a1a6\",\"main\":\"INSTANCE\",\"sub\":\"NONE\",\"text\":\"ISCC:IAA26E2JXH27TING\"}\n";
    let (status, output) = side_text(
        rt.alloc(),
        &["explain", " iscc:iaa2-6e2j-xh27-ting "],
        b"",
        &[],
    )?;
    assert_eq!(rt; status, Some(0));
    assert_eq!(rt; output.as_str(), want);
    Ok(())
}

#[test]
fn a_text_that_stands_for_no_code_is_told_with_its_first_fault(
    rt: HostRuntime,
) -> Result<(), Fail> {
    let cases = [
        ("AAA", "fault 10 text bits\n"),
        ("IPFS:AAAQ", "fault 10 text scheme\n"),
        ("ISCC:AA1Q", "fault 10 text letter 7\n"),
        ("ISCC:", "fault 10 text header\n"),
        ("MAAQAAAAAAAAAAAA", "fault 10 text main type\n"),
        ("AAIQAAAAAAAAAAAA", "fault 10 text version\n"),
        ("AAEAAAAA", "fault 10 text length\n"),
        ("AEAQAAAAAAAAAAAA", "fault 10 text sub type\n"),
        ("AAAQAAAAAAAAA", "fault 10 text short\n"),
        ("AAAQAAAAAAAAAAAAAA", "fault 10 text long\n"),
    ];
    for (text, line) in cases {
        let (status, output) = side_text(rt.alloc(), &["explain", text], b"", &[])?;
        assert_eq!(rt; status, Some(10), "{text}");
        assert_eq!(rt; output.as_str(), line, "{text}");
    }
    Ok(())
}

#[test]
fn the_composite_of_units_in_any_order_is_written(rt: HostRuntime) -> Result<(), Fail> {
    let want = "ISCC:KUAAAAAAAAAAAAAAAAAAAAAAAAAAA\n";
    for words in [
        ["compose", "ISCC:IAAQAAAAAAAAAAAA", "ISCC:GAAQAAAAAAAAAAAA"],
        ["compose", "gaaq-aaaa-aaaa-aaaa", " iscc:IAAQAAAAAAAAAAAA\t"],
    ] {
        let (status, output) = side_text(rt.alloc(), &words, b"", &[])?;
        assert_eq!(rt; status, Some(0));
        assert_eq!(rt; output.as_str(), want);
    }
    Ok(())
}

#[test]
fn the_first_refused_word_is_told_before_units_are_composed(rt: HostRuntime) -> Result<(), Fail> {
    let cases: [(&[&str], &str); 5] = [
        (
            &["compose", "ISCC:IAAQAAAAAAAAAAAA", "AAA"],
            "fault 10 word 1 bits\n",
        ),
        (&["compose", "AAA", "IPFS:AAAQ"], "fault 10 word 0 bits\n"),
        (
            &["compose", "IAAQAAAAAAAAAAAA", "IAAQAAAAAAAAAAAA", "AA1Q"],
            "fault 10 word 2 letter 2\n",
        ),
        (
            &["compose", "ISCC:KUAAAAAAAAAAAAAAAAAAAAAAAAAAA"],
            "fault 10 word 0 not a unit\n",
        ),
        (
            &["compose", "GAAQAAAAAAAAAAAA", "AAIQAAAAAAAAAAAA"],
            "fault 10 word 1 version\n",
        ),
    ];
    for (words, line) in cases {
        let (status, output) = side_text(rt.alloc(), words, b"", &[])?;
        assert_eq!(rt; status, Some(10));
        assert_eq!(rt; output.as_str(), line);
    }
    Ok(())
}

#[test]
fn units_without_a_composite_are_told_with_their_first_fault(rt: HostRuntime) -> Result<(), Fail> {
    let meta = "AAAQAAAAAAAAAAAA";
    let text_meaning = "CAAQAAAAAAAAAAAA";
    let image = "EEAQAAAAAAAAAAAA";
    let data = "GAAQAAAAAAAAAAAA";
    let narrow_data = "GAAAAAAAAA";
    let instance = "IAAQAAAAAAAAAAAA";
    let cases: [(&[&str], &str); 6] = [
        (&["compose", instance, instance], "fault 10 compose twice\n"),
        (&["compose", meta], "fault 10 compose no data\n"),
        (&["compose", meta, data], "fault 10 compose no instance\n"),
        (
            &["compose", narrow_data, instance],
            "fault 10 compose narrow\n",
        ),
        (
            &["compose", narrow_data, instance, image, text_meaning],
            "fault 10 compose narrow\n",
        ),
        (
            &["compose", text_meaning, image, data, instance],
            "fault 10 compose sub types\n",
        ),
    ];
    for (words, line) in cases {
        let (status, output) = side_text(rt.alloc(), words, b"", &[])?;
        assert_eq!(rt; status, Some(10));
        assert_eq!(rt; output.as_str(), line);
    }
    Ok(())
}

// Expected codes are the first 64 bits that b3sum 1.2.0, an outside program, gives.
#[test]
fn a_file_gets_the_code_of_its_bytes(rt: HostRuntime) -> Result<(), Fail> {
    let cases: [(&[u8], &str); 4] = [
        (b"", "ISCC:IAA26E2JXH27TING\n"),
        (b"abc", "ISCC:IAAWIN5TVQ4EMUJT\n"),
        (&[0; 1024], "ISCC:IAA5N7M54W6M6IR7\n"),
        (&[0; 1025], "ISCC:IAA5FPVUTWD6LHNR\n"),
    ];
    for (file, line) in cases {
        let (status, output) = side_text(rt.alloc(), &["instance", "a.txt"], file, &[])?;
        assert_eq!(rt; status, Some(0));
        assert_eq!(rt; output.as_str(), line);
    }
    Ok(())
}

#[test]
fn a_file_longer_than_a_request_file_gets_a_code(rt: HostRuntime) -> Result<(), Fail> {
    let alloc = rt.alloc();
    let long = vec![in alloc; b'#'; (1 << 24) + 1]?;
    let (status, output) = side_text(alloc, &["instance", "a.txt"], long.as_slice(), &[])?;
    assert_eq!(rt; status, Some(0));
    assert_eq!(rt; output.len(), 22);
    Ok(())
}

#[test]
fn a_file_that_is_not_read_is_told_by_its_name(rt: HostRuntime) -> Result<(), Fail> {
    let cases: [(&str, &[u64], u8, &str); 3] = [
        ("b.txt", &[], 3, "fault 3 missing b.txt\n"),
        ("/", &[], 3, "fault 3 missing /\n"),
        ("a.txt", &[0], 4, "fault 4 read a.txt\n"),
    ];
    for (name, fail, want, line) in cases {
        for command in ["instance", "check"] {
            let (status, output) = side_text(rt.alloc(), &[command, name], b"", fail)?;
            assert_eq!(rt; status, Some(want));
            assert_eq!(rt; output.as_str(), line);
        }
    }
    Ok(())
}

#[test]
fn other_first_words_leave_shelf_and_sink_untouched(rt: HostRuntime) -> Result<(), Fail> {
    let lists: [&[&str]; 6] = [
        &[],
        &["run", "a.txt"],
        &["Explain", "AAA"],
        &["instances", "a.txt"],
        &["checks", "a.txt"],
        &[""],
    ];
    for list in lists {
        let (status, output) = side_text(rt.alloc(), list, b"", &[0])?;
        assert_eq!(rt; status, None);
        assert!(rt; output.is_empty());
    }
    Ok(())
}

#[test]
fn a_code_that_is_cut_has_a_front_of_its_line(rt: HostRuntime) -> Result<(), Fail> {
    let alloc = rt.alloc();
    let mut shelf = shelf_of(alloc, b"abc", &[])?;
    let mut sink = sink_of(alloc, ROOM, 10)?;
    let words = words_of(alloc, &["instance", "a.txt"])?;
    assert_eq!(rt; side(alloc, &words, &mut shelf, &mut sink), Some(5));
    assert_eq!(rt; taken_text(alloc, &sink)?.as_str(), "ISCC:IAAWI");
    Ok(())
}

// The lines of a small history.
const HEAD: &str = "iscc-history 1";

const ROUND: &str = "round 0 base 0 entries 4096 log 65536 callers 1";

const FIRST: &str = "0.0 @1 declare ISCC:AAAQAAAAAAAAAAAA = id 0";

const SECOND: &str = "0.1 @2 declare ISCC:AAAQAAAAAAAAAAAB = id 1";

const NEAR: &str =
    "0.2 @2 near ISCC:AAAQAAAAAAAAAAAA 1 = hits 2 0,0,ISCC:AAAQAAAAAAAAAAAA 1,1,ISCC:AAAQAAAAAAAAAAAB";

const WITHDRAW: &str = "0.1 @2 withdraw 0 = withdrawn 0";

const END: &str = "end 3 live 2";

// The status of a check of a file with these lines, and what the sink has taken.
fn check_lines(alloc: Global, lines: &[&str]) -> Result<(Option<u8>, String), Fail> {
    let mut file = Vec::new(alloc);
    for line in lines {
        file.extend_from_slice(line.as_bytes())?;
        file.push(b'\n')?;
    }
    side_text(alloc, &["check", "a.txt"], file.as_slice(), &[])
}

#[test]
fn a_lawful_history_is_told_with_its_numbers(rt: HostRuntime) -> Result<(), Fail> {
    let cases: [(&[&str], &str); 4] = [
        (
            &[HEAD, ROUND, FIRST, SECOND, NEAR, END],
            "lawful rows 3 live 2\n",
        ),
        (
            &[
                HEAD,
                ROUND,
                FIRST,
                WITHDRAW,
                "0.2 @2 count = count 0",
                "end 3 live 0",
            ],
            "lawful rows 3 live 0\n",
        ),
        (&[HEAD, ROUND, "end 0 live 0"], "lawful rows 0 live 0\n"),
        // The replies of a run, which stand before its history, are passed.
        (
            &[
                "replies 0 0",
                "id 0",
                "id 1",
                "hits 2 0,0,ISCC:AAAQAAAAAAAAAAAA 1,1,ISCC:AAAQAAAAAAAAAAAB",
                HEAD,
                ROUND,
                FIRST,
                SECOND,
                NEAR,
                END,
            ],
            "lawful rows 3 live 2\n",
        ),
    ];
    for (lines, want) in cases {
        let (status, output) = check_lines(rt.alloc(), lines)?;
        assert_eq!(rt; output.as_str(), want);
        assert_eq!(rt; status, Some(0));
    }
    Ok(())
}

#[test]
fn the_first_line_that_cannot_stand_is_told(rt: HostRuntime) -> Result<(), Fail> {
    let cases: [(&[&str], &str); 9] = [
        (
            &[HEAD, ROUND, SECOND, FIRST, NEAR, END],
            "fault 10 line 3 session\n",
        ),
        (
            &[
                HEAD,
                ROUND,
                FIRST,
                "0.1 @3 declare ISCC:AAAQAAAAAAAAAAAB = id 1",
                NEAR,
                END,
            ],
            "fault 10 line 4 point\n",
        ),
        (
            &[
                HEAD,
                ROUND,
                FIRST,
                SECOND,
                "0.2 @2 near ISCC:AAAQAAAAAAAAAAAA 1 = hits 1 0,0,ISCC:AAAQAAAAAAAAAAAA",
                END,
            ],
            "fault 10 line 5 reply\n",
        ),
        (
            &[
                HEAD,
                ROUND,
                FIRST,
                WITHDRAW,
                "0.2 @2 count = count 1",
                "end 3 live 0",
            ],
            "fault 10 line 5 reply\n",
        ),
        (&[HEAD, ROUND, FIRST, SECOND, NEAR], "fault 10 line 6 end\n"),
        (
            &[HEAD, ROUND, FIRST, SECOND, NEAR, "end 3 live 3"],
            "fault 10 line 6 end\n",
        ),
        (
            &[HEAD, ROUND, FIRST, SECOND, NEAR, END, END],
            "fault 10 line 7 end\n",
        ),
        // The lines are counted from that on which begins the history; a second such line is of no form that is allowed there.
        (
            &["replies 0 0", "id 0", HEAD, HEAD, ROUND, "end 0 live 0"],
            "fault 10 line 2 form\n",
        ),
        (
            &["replies 0 0", "id 0", HEAD, ROUND, SECOND],
            "fault 10 line 3 session\n",
        ),
    ];
    for (lines, want) in cases {
        let (status, output) = check_lines(rt.alloc(), lines)?;
        assert_eq!(rt; output.as_str(), want);
        assert_eq!(rt; status, Some(10));
    }
    Ok(())
}

#[test]
fn a_file_without_a_history_is_told(rt: HostRuntime) -> Result<(), Fail> {
    let cases: [&[u8]; 8] = [
        b"",
        b"\n",
        b"replies 0 0\nid 0\n",
        b"iscc-history 2\n",
        b"iscc-history 1 \n",
        b"iscc-history 1\r\n",
        b" iscc-history 1",
        b"replies 0 0iscc-history 1\niscc-history",
    ];
    for file in cases {
        let (status, output) = side_text(rt.alloc(), &["check", "a.txt"], file, &[])?;
        assert_eq!(rt; status, Some(10));
        assert_eq!(rt; output.as_str(), "fault 10 line 0 none\n");
    }
    Ok(())
}

#[test]
fn a_history_may_begin_in_the_last_line(rt: HostRuntime) -> Result<(), Fail> {
    for file in [b"iscc-history 1".as_slice(), b"id 0\niscc-history 1"] {
        let (status, output) = side_text(rt.alloc(), &["check", "a.txt"], file, &[])?;
        // It has no line feed, as each line of a history has.
        assert_eq!(rt; output.as_str(), "fault 10 line 1 form\n");
        assert_eq!(rt; status, Some(10));
    }
    Ok(())
}

#[test]
fn the_output_of_a_run_is_checked_as_it_is(rt: HostRuntime) -> Result<(), Fail> {
    let alloc = rt.alloc();
    let (run_status, saved) = run_text(&rt, NEAR_TWO)?;
    assert_eq!(rt; run_status, 0);
    let (status, output) = side_text(alloc, &["check", "a.txt"], saved.as_bytes(), &[])?;
    assert_eq!(rt; output.as_str(), "lawful rows 3 live 2\n");
    assert_eq!(rt; status, Some(0));
    Ok(())
}
