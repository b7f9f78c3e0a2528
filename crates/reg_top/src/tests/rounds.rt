use super::sessions::{checked, files_of, kept};
use super::*;

// The status of a run with these words over these files, how many seals were kept, and what the sink has taken.
fn run_asked<R: Threads + Wait + Sync + AllocGlobal>(
    rt: &R,
    list: &[&str],
    files: &[(&str, &[u8])],
) -> Result<(u8, usize, String), Fail> {
    let alloc = rt.alloc();
    let words = words_of(alloc, list)?;
    let mut shelf = files_of(alloc, files, &[])?;
    let mut sink = sink_of(alloc, 1 << 16, usize::MAX)?;
    let mut seals = no_seals();
    let status = top(
        rt, alloc, &words, &mut shelf, &mut sink, &NoGate, &mut seals,
    );
    Ok((status, kept(&seals), taken_text(alloc, &sink)?))
}

const THREE: &[u8] =
    b"declare ISCC:AAAQAAAAAAAAAAAA\ndeclare ISCC:AAAQAAAAAAAAAAAA\ndeclare ISCC:AAAQAAAAAAAAAAAA\n";

#[test]
fn numbers_have_their_ranges_and_options_stand_once(rt: HostRuntime) -> Result<(), Fail> {
    // What stands behind `run`, and the status: 2 where the words aren't of the form. a.txt and b.txt are empty, and no image.
    let cases: [(&[&str], u8); 106] = [
        (&["--entries", "1", "a.txt"], 0),
        (&["--entries", "1048576", "a.txt"], 0),
        (&["--entries", "0", "a.txt"], 2),
        (&["--entries", "1048577", "a.txt"], 2),
        (&["--entries=4", "a.txt"], 0),
        (&["--entries=00000000000000000004", "a.txt"], 0),
        (&["--entries=000000000000000000004", "a.txt"], 2),
        (&["--entries", "18446744073709551616", "a.txt"], 2),
        (&["--entries", "4294967297", "a.txt"], 2),
        (&["--entries", "+4", "a.txt"], 2),
        (&["--entries", "-4", "a.txt"], 2),
        (&["--entries", "4x", "a.txt"], 2),
        (&["--entries", "", "a.txt"], 2),
        (&["--entries=", "a.txt"], 2),
        (&["--entries", "a.txt"], 2),
        (&["a.txt", "--entries"], 2),
        (&["a.txt", "--entries", "4"], 0),
        (&["--entries", "4", "--entries", "4", "a.txt"], 2),
        (&["--entries=4", "--entries", "4", "a.txt"], 2),
        (&["--entries", "4", "a.txt", "/", "b.txt", "--entries=5"], 2),
        (&["--log", "1", "a.txt"], 0),
        (&["--log", "4194304", "a.txt"], 0),
        (&["--log", "0", "a.txt"], 2),
        (&["--log", "4194305", "a.txt"], 2),
        (&["a.txt", "--log"], 2),
        (&["--log=", "a.txt"], 2),
        (&["--log", "", "a.txt"], 2),
        (&["--log", "a.txt"], 2),
        (&["--log", "2", "--log", "3", "a.txt"], 2),
        (&["a.txt", "--log=2"], 0),
        (&["--bits", "4", "a.txt"], 0),
        (&["--bits=16", "a.txt"], 0),
        (&["--bits", "3", "a.txt"], 2),
        (&["--bits", "17", "a.txt"], 2),
        (&["--bits=4", "--bits=4", "a.txt"], 2),
        (&["a.txt", "--bits"], 2),
        (&["--bits=", "a.txt"], 2),
        (&["--bits", "", "a.txt"], 2),
        (&["--bits", "a.txt"], 2),
        (&["--entries", "4", "--log", "5", "--bits", "6", "a.txt"], 0),
        (&["--load", "b.txt", "a.txt"], 9),
        (&["--load=b.txt", "a.txt"], 9),
        (&["a.txt", "--load", "b.txt"], 9),
        (&["--load", "c.img", "a.txt"], 3),
        (&["--save", "c.img", "a.txt"], 0),
        (&["--save=c.img", "a.txt"], 0),
        (&["a.txt", "--save", "c.img"], 0),
        (&["--save", "a.txt", "a.txt"], 0),
        (&["--load", "b.txt", "--load", "b.txt", "a.txt"], 2),
        (&["--load=b.txt", "--load", "b.txt", "a.txt"], 2),
        (&["--load=b.txt", "a.txt", "/", "b.txt", "--load=b.txt"], 2),
        (&["--save", "c.img", "--save=d.img", "a.txt"], 2),
        (&["a.txt", "--load"], 2),
        (&["a.txt", "--save"], 2),
        (&["--load=", "a.txt"], 2),
        (&["--load", "", "a.txt"], 2),
        (&["--save=", "a.txt"], 2),
        (&["--save=-x", "a.txt"], 2),
        (&["--save", "-x", "a.txt"], 2),
        (&["--load", "--save", "c.img", "a.txt"], 2),
        (&["--entries", "--load", "b.txt", "a.txt"], 2),
        (&["--load", "b.txt"], 2),
        (&["--save=c.img"], 2),
        (&["--load", "/", "a.txt"], 3),
        (&["--load=/", "a.txt"], 3),
        (&["--save", "/5:6", "a.txt"], 0),
        (&["a.txt", "--save=/", "b.txt"], 0),
        (&["a.txt", "--save", "/", "/"], 2),
        (&["--load=a=b", "a.txt"], 3),
        (&["--load==", "a.txt"], 3),
        (&["--load", "4", "a.txt"], 3),
        (&["--loads", "x", "a.txt"], 2),
        (&["--loads=x", "a.txt"], 2),
        (&["--saveb.txt", "a.txt"], 2),
        (&["--Load=b.txt", "a.txt"], 2),
        (&["--loa", "b.txt", "a.txt"], 2),
        (&["a.txt", "/", "--save", "c.img", "b.txt"], 0),
        (&["a.txt", "--save", "c.img", "/"], 2),
        (&["a.txt", "--load=b.txt", "/", "b.txt"], 9),
        (
            &[
                "--save",
                "c.img",
                "--log",
                "6",
                "a.txt",
                "/5:6",
                "b.txt",
                "--entries=4",
            ],
            0,
        ),
        (
            &[
                "--bits=7",
                "a.txt",
                "--load",
                "c.img",
                "/7:8",
                "--save=c.img",
                "b.txt",
            ],
            3,
        ),
        (&["--entries", "4"], 2),
        (&["--", "a.txt"], 2),
        (&["a.txt", "--"], 2),
        (&["--help", "a.txt"], 2),
        (&["--Entries", "4", "a.txt"], 2),
        (&["--entries4", "a.txt"], 2),
        (&["-e", "4", "a.txt"], 2),
        (&["=4", "a.txt"], 3),
        (&["a.txt", "/", "b.txt"], 0),
        (&["a.txt", "/", "/", "b.txt"], 2),
        (&["/", "a.txt"], 2),
        (&["a.txt", "/"], 2),
        (&["a.txt", "/1:1", "b.txt"], 0),
        (&["a.txt", "/1048576:4194304", "b.txt"], 0),
        (&["a.txt", "/0:5", "b.txt"], 2),
        (&["a.txt", "/5:0", "b.txt"], 2),
        (&["a.txt", "/1048577:5", "b.txt"], 2),
        (&["a.txt", "/5:4194305", "b.txt"], 2),
        (&["a.txt", "/5:18446744073709551615", "b.txt"], 2),
        (&["a.txt", "/5:18446744073709551616", "b.txt"], 3),
        (&["a.txt", "/5:123456789012345678901", "b.txt"], 3),
        (&["a.txt", "/5", "b.txt"], 3),
        (&["a.txt", "/:5", "b.txt"], 3),
        (&["a.txt", "/5:", "b.txt"], 3),
        (
            &[
                "a.txt",
                "/00000000000000000005:00000000000000000005",
                "b.txt",
            ],
            0,
        ),
    ];
    for (behind, want) in cases {
        let mut list = Vec::new(rt.alloc());
        list.push("run")?;
        list.extend_from_slice(behind)?;
        let (status, _, output) = run_asked(
            &rt,
            list.as_slice(),
            &[("a.txt", b""), ("b.txt", b"")],
        )?;
        assert_eq!(rt; status, want, "{behind:?}");
        if want == 2 {
            assert_eq!(rt; output.as_str(), "fault 2 words\n");
        }
    }
    Ok(())
}

#[test]
fn eight_rounds_of_sixteen_files_are_served_and_no_more(rt: HostRuntime) -> Result<(), Fail> {
    let alloc = rt.alloc();
    let files: [(&str, &[u8]); 1] = [("a.txt", b"count\n")];
    let mut list: Vec<&str> = Vec::new(alloc);
    list.push("run")?;
    for round in 0..8 {
        if round > 0 {
            list.push("/")?;
        }
        for _ in 0..16 {
            list.push("a.txt")?;
        }
    }
    let (status, seals, output) = run_asked(&rt, list.as_slice(), &files)?;
    assert_eq!(rt; status, 0);
    assert_eq!(rt; seals, 8);
    assert_eq!(rt; checked(alloc, output.as_str())?, (128, 0));
    assert!(rt;
        output
            .as_str()
            .contains("\nreplies 7 15\ncount 0\niscc-history 1\n")
    );
    list.push("a.txt")?;
    assert_eq!(rt; run_asked(&rt, list.as_slice(), &files)?.0, 2);
    list.pop();
    list.push("/")?;
    list.push("a.txt")?;
    assert_eq!(rt; run_asked(&rt, list.as_slice(), &files)?.0, 2);
    Ok(())
}

#[test]
fn an_option_is_one_word_or_two_anywhere_among_the_files(rt: HostRuntime) -> Result<(), Fail> {
    let text: &[u8] = b"declare ISCC:AAAQAAAAAAAAAAAA
declare ISCC:AAAQAAAAAAAAAAAA
withdraw 0
withdraw 7
declare ISCC:AAAQAAAAAAAAAAAA
near ISCC:AAAQAAAAAAAAAAAA 0
";
    let want = "replies 0 0
id 0
id 1
full log
none 7
full log
hits 2 0,0,ISCC:AAAQAAAAAAAAAAAA 1,0,ISCC:AAAQAAAAAAAAAAAA
iscc-history 1
round 0 base 0 entries 4096 log 2 callers 1
";
    let lists: [&[&str]; 4] = [
        &["run", "--log", "2", "a.txt"],
        &["run", "--log=2", "a.txt"],
        &["run", "a.txt", "--log", "2"],
        &["run", "a.txt", "--log=2"],
    ];
    for list in lists {
        let (status, seals, output) = run_asked(&rt, list, &[("a.txt", text)])?;
        assert_eq!(rt; status, 0);
        assert_eq!(rt; seals, 1);
        assert!(rt; output.as_str().starts_with(want), "{output}");
    }
    Ok(())
}

#[test]
fn four_entries_serve_a_hundred_declarations_that_are_withdrawn(
    rt: HostRuntime,
) -> Result<(), Fail> {
    let alloc = rt.alloc();
    let mut text = String::new(alloc);
    let mut want = String::new(alloc);
    want.push_str("replies 0 0\n")?;
    for pair in 0..100_u64 {
        let id = 2 * pair;
        text.push_str(format!(in alloc;
            "declare ISCC:AAAQAAAAAAAAAAAA\nwithdraw {id}\n"
        )?.as_str())?;
        want.push_str(format!(in alloc; "id {id}\nwithdrawn {id}\n")?.as_str())?;
    }
    for _ in 0..5 {
        text.push_str("declare ISCC:AAAQAAAAAAAAAAAA\n")?;
    }
    want.push_str("id 200\nid 201\nid 202\nid 203\nfull entries 100\niscc-history 1\n")?;
    let list = ["run", "--entries", "4", "a.txt"];
    let (status, _, output) = run_asked(&rt, &list, &[("a.txt", text.as_bytes())])?;
    assert_eq!(rt; status, 0);
    assert!(rt; output.as_str().starts_with(want.as_str()), "{output}");
    Ok(())
}

#[test]
fn a_round_begins_with_what_the_one_before_leaves(rt: HostRuntime) -> Result<(), Fail> {
    let next: &[u8] = b"show 1\ndeclare ISCC:AAAQAAAAAAAAAAAB\nwithdraw 0\nshow 0\n";
    let files = [("a.txt", THREE), ("b.txt", next)];
    let (status, seals, output) = run_asked(&rt, &["run", "a.txt", "/2:64", "b.txt"], &files)?;
    assert_eq!(rt; status, 8);
    assert_eq!(rt; seals, 1);
    assert_eq!(rt; output.as_str(), "fault 8 round 1 live 3 entries 2\n");
    let want = "replies 0 0
id 0
id 1
id 2
replies 1 0
live ISCC:AAAQAAAAAAAAAAAA
id 3
withdrawn 0
none 0
iscc-history 1
round 0 base 0 entries 4096 log 65536 callers 1
0.0 @1 declare ISCC:AAAQAAAAAAAAAAAA = id 0
0.1 @2 declare ISCC:AAAQAAAAAAAAAAAA = id 1
0.2 @3 declare ISCC:AAAQAAAAAAAAAAAA = id 2
round 1 base 3 entries 8 log 64 callers 1
0.0 @3 show 1 = live ISCC:AAAQAAAAAAAAAAAA
0.1 @4 declare ISCC:AAAQAAAAAAAAAAAB = id 3
0.2 @5 withdraw 0 = withdrawn 0
0.3 @5 show 0 = none 0
end 7 live 3
";
    let (status, seals, output) = run_asked(&rt, &["run", "a.txt", "/8:64", "b.txt"], &files)?;
    assert_eq!(rt; status, 0);
    assert_eq!(rt; seals, 2);
    assert_eq!(rt; output.as_str(), want);
    Ok(())
}

#[test]
fn what_is_withdrawn_takes_no_entry_of_the_next_round(rt: HostRuntime) -> Result<(), Fail> {
    // Three are declared and one is withdrawn, so two entries are enough for the next round, and one is not.
    let alloc = rt.alloc();
    let text: &[u8] = b"declare ISCC:AAAQAAAAAAAAAAAA
declare ISCC:AAAQAAAAAAAAAAAA
declare ISCC:AAAQAAAAAAAAAAAA
withdraw 1
";
    let next: &[u8] = b"count\nshow 1\n";
    let files = [("a.txt", text), ("b.txt", next), ("c.txt", b"count\n")];
    let list = ["run", "a.txt", "/2:64", "b.txt"];
    let (status, seals, output) = run_asked(&rt, &list, &files)?;
    assert_eq!(rt; status, 0);
    assert_eq!(rt; seals, 2);
    assert!(rt;
        output
            .as_str()
            .contains("\nreplies 1 0\ncount 2\nnone 1\niscc-history 1\n")
    );
    assert_eq!(rt; checked(alloc, output.as_str())?, (6, 2));
    let list = ["run", "a.txt", "/", "b.txt", "/1:64", "c.txt"];
    let (status, seals, output) = run_asked(&rt, &list, &files)?;
    assert_eq!(rt; status, 8);
    assert_eq!(rt; seals, 2);
    assert_eq!(rt; output.as_str(), "fault 8 round 2 live 2 entries 1\n");
    Ok(())
}

#[test]
fn a_mark_without_numbers_keeps_the_sizes_of_the_round_before(rt: HostRuntime) -> Result<(), Fail> {
    let list = [
        "run",
        "a.txt",
        "/",
        "a.txt",
        "/7:9",
        "a.txt",
        "/",
        "a.txt",
        "--log",
        "5",
        "--entries=6",
    ];
    let (status, seals, output) = run_asked(&rt, &list, &[("a.txt", b"")])?;
    assert_eq!(rt; status, 0);
    assert_eq!(rt; seals, 4);
    assert!(rt;
        output.as_str().ends_with(
            "iscc-history 1
round 0 base 0 entries 6 log 5 callers 1
round 1 base 0 entries 6 log 5 callers 1
round 2 base 0 entries 7 log 9 callers 1
round 3 base 0 entries 7 log 9 callers 1
end 0 live 0
"
        ),
        "{output}"
    );
    Ok(())
}

#[test]
fn a_round_of_several_sessions_leaves_what_all_of_them_declared(
    rt: HostRuntime,
) -> Result<(), Fail> {
    let list = ["run", "a.txt", "a.txt", "/", "b.txt", "a.txt", "/", "b.txt"];
    let (status, seals, output) = run_asked(
        &rt,
        &list,
        &[("a.txt", THREE), ("b.txt", b"count\n")],
    )?;
    assert_eq!(rt; status, 0);
    assert_eq!(rt; seals, 3);
    assert_eq!(rt; checked(rt.alloc(), output.as_str())?, (11, 9));
    assert!(rt;
        output
            .as_str()
            .contains("\nreplies 2 0\ncount 9\niscc-history 1\n"),
        "{output}"
    );
    assert!(rt;
        output
            .as_str()
            .contains("\nround 1 base 6 entries 4096 log 65536 callers 2\n")
    );
    assert!(rt;
        output
            .as_str()
            .contains("\nround 2 base 9 entries 4096 log 65536 callers 1\n")
    );
    Ok(())
}
