use super::*;
use iscc_header::Kind;
use std::test::Fail;

// The kind, entry and id of a declaration, and its word: least, other and greatest.
const DECLS: [(u8, u32, u64, u64); 4] = [
    (0, 0, 0, 0x1),
    (6, 5, 3, 201_326_937),
    (12, 1, 1, 0x0400_0071),
    (12, 0xF_FFFF, 0x7_FFFF_FFFF, 0x1FFF_FFFF_FFFF_FFF1),
];

// The entry and id of a withdrawal, and its word.
const WDS: [(u32, u64, u64); 3] = [
    (0, 0, 0x2),
    (1, 1, 0x0400_0042),
    (0xF_FFFF, 0x7_FFFF_FFFF, 0x1FFF_FFFF_FFFF_FFC2),
];

// Tag 0, tag 0 with a kind and with an entry; tag 3; the kinds 13 and 15; a withdrawal with a kind; each bit above.
const NO_LOG_WORDS: [u64; 11] = [
    0x0,
    0x4,
    0x40,
    0x3,
    0x35,
    0x3D,
    0x6,
    0x3E,
    0x2000_0000_0000_0001,
    0x4000_0000_0000_0001,
    0x8000_0000_0000_0002,
];

#[test]
fn a_log_record_has_its_word_and_other_words_are_none(rt: HostRuntime) -> Result<(), Fail> {
    for (number, entry, id, word) in DECLS {
        let kind = Kind::new(number).ok_or("no kind")?;
        assert!(rt; entry < 1_048_576 && id < 34_359_738_368);
        let record = LogWord::Decl { kind, entry, id };
        assert_eq!(rt; record.pack(), word);
        assert_eq!(rt; LogWord::unpack(word), Some(record));
    }
    for (entry, id, word) in WDS {
        assert!(rt; entry < 1_048_576 && id < 34_359_738_368);
        let record = LogWord::Wd { entry, id };
        assert_eq!(rt; record.pack(), word);
        assert_eq!(rt; LogWord::unpack(word), Some(record));
    }
    for word in NO_LOG_WORDS {
        assert_eq!(rt; LogWord::unpack(word), None, "{word}");
    }
    Ok(())
}

// The kind and id of a live declaration, and its stamp.
const LIVE: [(u8, u64, u64); 3] = [
    (0, 0, 0x2000_0000),
    (6, 3, 2_348_810_240),
    (12, 0x7_FFFF_FFFE, 0xFFFF_FFFF_F800_0000),
];

// The kind, id and place of the death of a withdrawn declaration, and its stamp.
const DEAD: [(u8, u64, u32, u64); 4] = [
    (0, 0, 0, 0x2000_0001),
    (6, 3, 7, 2_348_810_248),
    (5, 6, 7, 0xEA00_0008),
    (12, 0x7_FFFF_FFFE, 33_554_430, 0xFFFF_FFFF_F9FF_FFFF),
];

// A death without an id, a kind without one, both; the kind 13, live and dead; the kind 15.
const NO_STAMPS: [u64; 6] = [
    0x1,
    0x0200_0000,
    0x19FF_FFFF,
    0x3A00_0000,
    0x3A00_0001,
    u64::MAX,
];

#[test]
fn a_stamp_has_its_word_and_other_words_are_none(rt: HostRuntime) -> Result<(), Fail> {
    assert_eq!(rt; StampWord::Unborn.pack(), 0);
    assert_eq!(rt; StampWord::unpack(0), Some(StampWord::Unborn));
    for (number, id, word) in LIVE {
        let kind = Kind::new(number).ok_or("no kind")?;
        assert!(rt; id < 34_359_738_367);
        let stamp = StampWord::Live { kind, id };
        assert_eq!(rt; stamp.pack(), word);
        assert_eq!(rt; StampWord::unpack(word), Some(stamp));
    }
    for (number, id, death, word) in DEAD {
        let kind = Kind::new(number).ok_or("no kind")?;
        assert!(rt; id < 34_359_738_367 && death < 33_554_431);
        let stamp = StampWord::Dead { kind, id, death };
        assert_eq!(rt; stamp.pack(), word);
        assert_eq!(rt; StampWord::unpack(word), Some(stamp));
    }
    for word in NO_STAMPS {
        assert_eq!(rt; StampWord::unpack(word), None, "{word}");
    }
    Ok(())
}

// Held, limbo, place and mark of a state of the sweep, and its word.
const SWEEPS: [(bool, bool, u32, u32, u64); 4] = [
    (false, false, 0, 0, 0x0),
    (true, false, 0, 0, 0x1),
    (false, true, 1, 1, 0x0800_0006),
    (true, true, 33_554_431, 33_554_431, 0xF_FFFF_FFFF_FFFF),
];

#[test]
fn a_state_of_the_sweep_has_its_word_and_other_words_are_none(rt: HostRuntime) {
    for (held, limbo, place, mark, word) in SWEEPS {
        assert!(rt; place < 33_554_432 && mark < 33_554_432);
        let state = SweepWord {
            held,
            limbo,
            place,
            mark,
        };
        assert_eq!(rt; state.pack(), word);
        assert_eq!(rt; SweepWord::unpack(word), Some(state));
    }
    for word in [0x10_0000_0000_0000, 0x10_0000_2800_0017, u64::MAX] {
        assert_eq!(rt; SweepWord::unpack(word), None, "{word}");
    }
}

#[test]
fn the_areas_of_a_small_and_of_the_greatest_table_follow_each_other(rt: HostRuntime) {
    let small = Areas {
        take: 1,
        put: 2,
        sweep: 3,
        pin: 4,
        head: 6,
        code: 70,
        stamp: 72,
        next: 74,
        give: 82,
        log: 84,
        note: 148,
        total: 212,
    };
    assert_eq!(rt; Areas::of(2, 64, 4, 2), small);
    let greatest = Areas {
        take: 1,
        put: 2,
        sweep: 3,
        pin: 4,
        head: 20,
        code: 262_164,
        stamp: 1_310_740,
        next: 2_359_316,
        give: 6_553_620,
        log: 7_602_196,
        note: 11_796_500,
        total: 15_990_804,
    };
    assert_eq!(rt; Areas::of(1_048_576, 4_194_304, 16, 16), greatest);
    assert_eq!(rt; Areas::of(4_096, 65_536, 12, 1).total, 176_133);
}
