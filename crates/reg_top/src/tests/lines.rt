use super::*;

// What stands between the line that names the session and the history.
fn replies<R: Threads + Wait + Sync + AllocGlobal>(rt: &R, text: &str) -> Result<String, Fail> {
    let (status, output) = run_text(rt, text)?;
    if status != 0 {
        return Err("no output".into());
    }
    let Some(behind) = output.as_str().strip_prefix("replies 0 0\n") else {
        return Err("no replies".into());
    };
    let Some((replies, _)) = behind.split_once("iscc-history 1\n") else {
        return Err("no history".into());
    };
    Ok(replies.to_string(rt.alloc())?)
}

#[test]
fn a_refused_line_is_told_with_its_first_fault_and_makes_no_row(
    rt: HostRuntime,
) -> Result<(), Fail> {
    let cases = [
        ("find ISCC:AAAQAAAAAAAAAAAA", "line"),
        ("near ISCC:AAAQAAAAAAAAAAAA", "line"),
        ("declare", "line"),
        ("declare ISCC:AAAQAAAAAAAAAAAA 1", "line"),
        ("Declare ISCC:AAAQAAAAAAAAAAAA", "line"),
        ("instance 00 00", "line"),
        ("withdraw", "line"),
        ("show 0 0", "line"),
        ("count 0", "line"),
        ("after", "line"),
        ("\0", "line"),
        ("\u{e9}", "line"),
        ("declare #", "text"),
        ("declare ISCC:AAAQAAAAAAAAAAAA=", "text"),
        ("near IPFS:AAAQ x", "text"),
        ("declare AAAAAAAAAA", "short"),
        ("near AAAAAAAAAA 16", "short"),
        ("near ISCC:AAAQAAAAAAAAAAAA x", "number"),
        ("near ISCC:AAAQAAAAAAAAAAAA +1", "number"),
        ("near ISCC:AAAQAAAAAAAAAAAA 18446744073709551616", "number"),
        ("near ISCC:AAAQAAAAAAAAAAAA 000000000000000000015", "number"),
        ("withdraw x", "number"),
        ("withdraw -1", "number"),
        ("show 18446744073709551616", "number"),
        ("after 000000000000000000000", "number"),
        ("near ISCC:AAAQAAAAAAAAAAAA 18446744073709551615", "radius"),
        ("near ISCC:AAAQAAAAAAAAAAAA 16", "radius"),
        ("instance abc", "hex"),
        ("instance 0g", "hex"),
    ];
    for (line, why) in cases {
        let (status, output) = run_text(&rt, line)?;
        assert_eq!(rt; status, 0);
        let want = format!(in rt.alloc();
            "replies 0 0\nbad {why}\niscc-history 1\nround 0 base 0 entries 4096 log 65536 callers 1\nend 0 live 0\n"
        )?;
        assert_eq!(rt; output.as_str(), want.as_str(), "{line}");
    }
    Ok(())
}

#[test]
fn hostile_lines_get_their_replies_one_after_the_other(rt: HostRuntime) -> Result<(), Fail> {
    let alloc = rt.alloc();
    let mut text = String::new(alloc);
    text.push_str("declare\tISCC:AAAQAAAAAAAAAAAA\r\n")?;
    text.push_str("DECLARE ISCC:AAAQAAAAAAAAAAAA\n")?;
    text.push_str("declare ISCC:AAAQAAAAAAAAAAAA ISCC:AAAQAAAAAAAAAAAB\n")?;
    text.push_str("declare ISCC:\n")?;
    text.push_str("declare iscc:iscc:AAAQAAAAAAAAAAAA\n")?;
    text.push_str("declare ")?;
    for _ in 0..100_000 {
        text.push_str("AAAAAAAAAA")?;
    }
    text.push_str("\nnear ISCC:AAAQAAAAAAAAAAAA 00000000000000000015\n")?;
    text.push_str("near ISCC:AAAQAAAAAAAAAAAA 000000000000000000015\n")?;
    text.push_str("near AAAAAAAAAA 99\n")?;
    text.push_str("count 1\n\0\ninstance 0G\n")?;
    let want = "id 0
bad line
bad line
bad text
bad text
bad text
hits 1 0,0,ISCC:AAAQAAAAAAAAAAAA
bad number
bad short
bad line
bad line
bad hex
";
    assert_eq!(rt; replies(&rt, text.as_str())?.as_str(), want);
    Ok(())
}

#[test]
fn lines_without_words_and_comments_are_skipped(rt: HostRuntime) -> Result<(), Fail> {
    let text =
        "\n \t \n\r\n# declare ISCC:AAAQAAAAAAAAAAAA\n\t#\n \t declare \t\t ISCC:AAAQAAAAAAAAAAAA \r\n";
    assert_eq!(rt; replies(&rt, text)?.as_str(), "id 0\n");
    let (_, output) = run_text(&rt, "# nothing")?;
    assert_eq!(rt;
        output.as_str(),
        "replies 0 0\niscc-history 1\nround 0 base 0 entries 4096 log 65536 callers 1\nend 0 live 0\n"
    );
    Ok(())
}

#[test]
fn a_unit_is_declared_by_its_first_64_bits(rt: HostRuntime) -> Result<(), Fail> {
    // META with 256 bits of zeros.
    let text =
        "declare AADQAAAAAAAAAAAAAAAAAAAAAAAAAAAAAAAAAAAAAAAAAAAAAAAAAAA\nnear aaaq-aaaa-aaaa-aaaa 015\nshow 0\n";
    assert_eq!(rt;
        replies(&rt, text)?.as_str(),
        "id 0\nhits 1 0,0,ISCC:AAAQAAAAAAAAAAAA\nlive ISCC:AAAQAAAAAAAAAAAA\n"
    );
    Ok(())
}

#[test]
fn bodies_at_distance_15_are_found_at_radius_15_and_not_at_14(rt: HostRuntime) -> Result<(), Fail> {
    let text = "declare ISCC:AAAQABYAB4AA6AAP
declare ISCC:AAAQADYAB4AA6AAH
near ISCC:AAAQAAAAAAAAAAAA 15
near ISCC:AAAQAAAAAAAAAAAA 14
";
    let want = "id 0
id 1
hits 2 0,15,ISCC:AAAQABYAB4AA6AAP 1,15,ISCC:AAAQADYAB4AA6AAH
hits 0
";
    assert_eq!(rt; replies(&rt, text)?.as_str(), want);
    Ok(())
}

#[test]
fn an_iscc_code_is_one_call_for_each_of_its_units(rt: HostRuntime) -> Result<(), Fail> {
    let text = "declare ISCC:KACQAAAAAAAAAAAAAAAAAAAAAAAAAAAAAAAAAAAAACXRGSNZ6X42DJQ
near ISCC:KACQAAAAAAAAAAAAAAAAAAAAAAAAAAAAAAAAAAAAACXRGSNZ6X42DJQ 0";
    let want = "id 0
id 1
id 2
id 3
hits 1 0,0,ISCC:AAAQAAAAAAAAAAAA
hits 1 1,0,ISCC:EAAQAAAAAAAAAAAA
hits 1 2,0,ISCC:GAAQAAAAAAAAAAAA
hits 1 3,0,ISCC:IAA26E2JXH27TING
";
    assert_eq!(rt; replies(&rt, text)?.as_str(), want);
    Ok(())
}

#[test]
fn an_instance_line_declares_the_code_of_its_bytes(rt: HostRuntime) -> Result<(), Fail> {
    let text =
        "instance 616263\nnear ISCC:IAAWIN5TVQ4EMUJT 0\ninstance\nnear ISCC:IAA26E2JXH27TING 0\n";
    let want = "id 0
hits 1 0,0,ISCC:IAAWIN5TVQ4EMUJT
id 1
hits 1 1,0,ISCC:IAA26E2JXH27TING
";
    assert_eq!(rt; replies(&rt, text)?.as_str(), want);
    Ok(())
}

#[test]
fn a_withdrawn_declaration_is_absent_from_then_on(rt: HostRuntime) -> Result<(), Fail> {
    let text = "declare ISCC:AAAQAAAAAAAAAAAA
withdraw 0
withdraw 0
withdraw 1
withdraw 9
show 0
count
after 2
after 3
";
    let want = "replies 0 0
id 0
withdrawn 0
none 0
none 1
none 9
none 0
count 0
reached
ahead
iscc-history 1
round 0 base 0 entries 4096 log 65536 callers 1
0.0 @1 declare ISCC:AAAQAAAAAAAAAAAA = id 0
0.1 @2 withdraw 0 = withdrawn 0
0.2 @2 withdraw 0 = none 0
0.3 @2 withdraw 1 = none 1
0.4 @2 withdraw 9 = none 9
0.5 @2 show 0 = none 0
0.6 @2 count = count 0
0.7 @2 after 2 = reached
0.8 @2 after 3 = ahead
end 9 live 0
";
    let (status, output) = run_text(&rt, text)?;
    assert_eq!(rt; status, 0);
    assert_eq!(rt; output.as_str(), want);
    Ok(())
}

#[test]
fn the_history_ends_with_what_is_live(rt: HostRuntime) -> Result<(), Fail> {
    let text = "declare ISCC:AAAQAAAAAAAAAAAA\ndeclare ISCC:AAAQAAAAAAAAAAAB\nwithdraw 0\ncount";
    let want = "replies 0 0
id 0
id 1
withdrawn 0
count 1
iscc-history 1
round 0 base 0 entries 4096 log 65536 callers 1
0.0 @1 declare ISCC:AAAQAAAAAAAAAAAA = id 0
0.1 @2 declare ISCC:AAAQAAAAAAAAAAAB = id 1
0.2 @3 withdraw 0 = withdrawn 0
0.3 @3 count = count 1
end 4 live 1
";
    let (status, output) = run_text(&rt, text)?;
    assert_eq!(rt; status, 0);
    assert_eq!(rt; output.as_str(), want);
    Ok(())
}

#[test]
fn a_withdrawal_gives_its_entry_back(rt: HostRuntime) -> Result<(), Fail> {
    let alloc = rt.alloc();
    let mut text = String::new(alloc);
    for _ in 0..4097 {
        text.push_str("declare ISCC:AAAQAAAAAAAAAAAA\n")?;
    }
    text.push_str("withdraw 7\ndeclare ISCC:AAAQAAAAAAAAAAAB\ndeclare ISCC:AAAQAAAAAAAAAAAB\n")?;
    let mut shelf = shelf_of(alloc, text.as_bytes(), &[])?;
    let mut sink = ListSink::new(Vec::with_capacity(alloc, 1 << 20)?, 65536, usize::MAX);
    assert_eq!(rt;
        top_of(&rt, &run_words(alloc, "a.txt")?, &mut shelf, &mut sink),
        0
    );
    let output = taken_text(alloc, &sink)?;
    assert!(rt;
        output.as_str().contains(
            "\nid 4095\nfull entries 0\nwithdrawn 7\nid 4097\nfull entries 1\niscc-history 1\n"
        )
    );
    let end = "\n0.4099 @4098 declare ISCC:AAAQAAAAAAAAAAAB = full entries 1\nend 4100 live 4096\n";
    assert!(rt; output.as_str().ends_with(end));
    Ok(())
}
