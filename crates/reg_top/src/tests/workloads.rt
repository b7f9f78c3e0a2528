use super::sessions::kept;
use super::*;

// The status of a `make` with these words behind it, how many seals were kept, and what the sink has taken.
fn made<R: Threads + Wait + Sync + AllocGlobal>(
    rt: &R,
    behind: &[&str],
) -> Result<(u8, usize, String), Fail> {
    let alloc = rt.alloc();
    let mut words = words_of(alloc, &["make"])?;
    for word in behind {
        words.push(word)?;
    }
    let mut shelf = shelf_of(alloc, b"", &[])?;
    let mut sink = sink_of(alloc, ROOM, usize::MAX)?;
    let mut seals = no_seals();
    let status = top(
        rt, alloc, &words, &mut shelf, &mut sink, &NoGate, &mut seals,
    );
    Ok((status, kept(&seals), taken_text(alloc, &sink)?))
}

#[test]
fn a_workload_writes_the_line_of_its_counts(rt: HostRuntime) -> Result<(), Fail> {
    // The hits are counted by an outside program from the definition.
    let cases: [(&[&str], &str); 4] = [
        (
            &["1", "16", "1"],
            "made calls 40 accepted 24 live 8 hits 16\n",
        ),
        (
            &["7", "1000", "4"],
            "made calls 6016 accepted 6000 live 2000 hits 4000\n",
        ),
        (&["0", "1", "1"], "made calls 17 accepted 1 live 1 hits 1\n"),
        (
            &["18446744073709551615", "01", "16"],
            "made calls 40 accepted 24 live 8 hits 16\n",
        ),
    ];
    for (behind, want) in cases {
        let (status, seals, output) = made(&rt, behind)?;
        assert_eq!(rt; status, 0);
        assert_eq!(rt; seals, 2);
        assert_eq!(rt; output.as_str(), want);
    }
    Ok(())
}

#[test]
fn a_workload_has_three_numbers_in_range(rt: HostRuntime) -> Result<(), Fail> {
    let lists: [&[&str]; 14] = [
        &[],
        &["1", "16"],
        &["1", "16", "1", "1"],
        &["1", "0", "1"],
        &["1", "1", "0"],
        &["1", "1", "17"],
        &["1", "1000001", "1"],
        &["1", "62501", "16"],
        &["18446744073709551616", "1", "1"],
        &["1", "18446744073709551615", "16"],
        &["1", "1", "1.0"],
        &["-1", "1", "1"],
        &["", "1", "1"],
        &["1", "--entries", "1"],
    ];
    for behind in lists {
        let (status, seals, output) = made(&rt, behind)?;
        assert_eq!(rt; status, 2, "{behind:?}");
        assert_eq!(rt; seals, 0);
        assert_eq!(rt; output.as_str(), "fault 2 words\n");
    }
    Ok(())
}
