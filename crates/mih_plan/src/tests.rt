use super::*;
use std::test::Fail;

// Its four substrings are FEDC, BA98, 7654 and 3210.
const BODY: u64 = 0xFEDC_BA98_7654_3210;

#[test]
fn a_bucket_is_the_low_bits_of_its_substring(rt: HostRuntime) {
    let cases = [
        (0, 0xC, 0xEDC, 0xFEDC),
        (1, 0x8, 0xA98, 0xBA98),
        (2, 0x4, 0x654, 0x7654),
        (3, 0x0, 0x210, 0x3210),
    ];
    for (table, four, twelve, sixteen) in cases {
        if table < 4 {
            assert_eq!(rt; bucket_of(BODY, table, 4), four, "table {table}");
            assert_eq!(rt; bucket_of(BODY, table, 12), twelve, "table {table}");
            assert_eq!(rt; bucket_of(BODY, table, 16), sixteen, "table {table}");
        }
    }
}

// The buckets of each table, by an outside program for all but the first two.
#[test]
fn a_plan_is_by_table_and_then_by_bucket(rt: HostRuntime) -> Result<(), Fail> {
    let cases = [
        (0, 0, 12, [[0].as_slice(), &[], &[], &[]]),
        (0, 4, 4, [[0, 1, 2, 4, 8].as_slice(), &[0], &[0], &[0]]),
        (BODY, 2, 4, [[12].as_slice(), &[8], &[4], &[]]),
        (
            BODY,
            5,
            4,
            [
                [4, 8, 12, 13, 14].as_slice(),
                &[0, 8, 9, 10, 12],
                &[4],
                &[0],
            ],
        ),
    ];
    for (body, radius, bits, tables) in cases {
        let list = plan(rt.alloc(), body, radius, bits)?;
        let mut probes = Probes::of(body, radius, bits);
        let mut place = 0usize;
        for (table, buckets) in tables.iter().enumerate() {
            for bucket in *buckets {
                let probe = Probe {
                    table: table as u32,
                    bucket: *bucket,
                };
                assert_eq!(rt;
                    list.as_slice().get(place).copied(),
                    Some(probe),
                    "radius {radius}"
                );
                assert_eq!(rt; probes.next_probe(), Some(probe), "radius {radius}");
                place = place.wrapping_add(1);
            }
        }
        assert_eq!(rt; list.as_slice().len(), place, "radius {radius}");
        assert_eq!(rt; probes.next_probe(), None, "radius {radius}");
    }
    Ok(())
}

// How many probes a plan of each radius has, with 4, 12 and 16 bits: by an outside program.
const COUNTS: [(usize, usize, usize); 16] = [
    (1, 1, 1),
    (2, 2, 2),
    (3, 3, 3),
    (4, 4, 4),
    (8, 16, 20),
    (12, 28, 36),
    (16, 40, 52),
    (20, 52, 68),
    (26, 118, 188),
    (32, 184, 308),
    (38, 250, 428),
    (44, 316, 548),
    (48, 536, 1108),
    (52, 756, 1668),
    (56, 976, 2228),
    (60, 1196, 2788),
];

#[test]
fn a_plan_of_each_radius_has_so_many_probes(rt: HostRuntime) -> Result<(), Fail> {
    for (radius, (four, twelve, sixteen)) in COUNTS.iter().enumerate() {
        if radius <= 15 {
            let radius = radius as u32;
            let few = plan(rt.alloc(), BODY, radius, 4)?;
            assert_eq!(rt; few.as_slice().len(), *four, "radius {radius}");
            let more = plan(rt.alloc(), BODY, radius, 12)?;
            assert_eq!(rt; more.as_slice().len(), *twelve, "radius {radius}");
            let most = plan(rt.alloc(), BODY, radius, 16)?;
            assert_eq!(rt; most.as_slice().len(), *sixteen, "radius {radius}");
        }
    }
    let greatest = plan(rt.alloc(), 0, 15, 16)?;
    assert_eq!(rt; greatest.as_slice().len(), 2788);
    Ok(())
}
