// Two faults: in one record the lower number decides, in two records the earlier, and lines 1 to 4 before any record.
use super::{bytes_of, cells, file_of, front, judge, refused, repeated, ruled, total, tried};
use std::test::Fail;

#[test]
fn in_one_record(rt: HostRuntime) -> Result<(), Fail> {
    let heap = rt.alloc();
    // twice, and no cell; twice, and past the end; no cell, and past the end
    judge(
        &rt,
        2,
        &[],
        &[
            (6, &[2, 4, 2, 0, 0]),
            (5, &[2, 2, 2, 0]),
            (5, &[2, 4, 2, 0]),
        ],
    )?;
    judge(
        &rt,
        3,
        &[],
        &[
            (6, &[5, 0, 0, 1]),
            (6, &[4, 1, 1, 2]),
            (5, &[1, 0, 0]),
            (5, &[5, 0, 1]),
        ],
    )?;
    for (number, count, floor, terms) in [
        (6, 2, 10, [(0, 1), (0, 1)]),
        (6, 2, 0, [(0, 0), (0, 1)]),
        (5, 3, 10, [(0, 1), (1, 1)]),
        (5, 3, 0, [(0, 1), (0, 1)]),
    ] {
        let found = ruled(heap, 4, &total(heap, count, floor, 9, &terms)?)?;
        assert_eq!(rt; found, refused(number, 4, 35));
    }
    Ok(())
}

#[test]
fn in_two_records(rt: HostRuntime) -> Result<(), Fail> {
    let heap = rt.alloc();
    let cases: [(u8, &[u16], u8, u16); 9] = [
        // plates of 8 bytes: twice before no cell, before past the end, and after each; lawful before each
        (2, &[2, 2, 1, 0, 2, 4, 1, 0], 7, 35),
        (2, &[2, 3, 1, 3, 2, 9, 1, 0], 7, 35),
        (2, &[2, 2, 1, 0, 2, 3, 9], 7, 35),
        (2, &[2, 4, 1, 0, 2, 2, 1, 0], 6, 35),
        (2, &[2, 4, 1, 0, 2, 3, 9], 6, 35),
        (2, &[2, 3, 1, 0, 2, 2, 1, 0], 7, 43),
        (2, &[2, 3, 1, 0, 2, 3, 9], 5, 43),
        (3, &[1, 0, 0, 1, 9, 0, 1, 2], 7, 35),
        (3, &[1, 0, 1, 2, 1, 0, 1, 4, 1, 0, 0, 1], 6, 43),
    ];
    for (kind, numbers, number, place) in cases {
        let found = ruled(heap, kind, &bytes_of(heap, numbers)?)?;
        assert_eq!(rt; found, refused(number, kind, place), "{numbers:?}");
    }
    Ok(())
}

#[test]
fn in_two_bodies(rt: HostRuntime) -> Result<(), Fail> {
    let heap = rt.alloc();
    let four = cells(heap, 4)?;
    let unsound = bytes_of(heap, &[9, 0])?;
    let twice = bytes_of(heap, &[2, 2, 1, 0])?;
    let missing = total(heap, 1, 0, 9, &[(4, 1)])?;
    let file = file_of(heap, &[(1, &unsound), (2, &twice)])?;
    assert_eq!(rt; tried(&file), refused(6, 1, 19));
    let file = file_of(heap, &[(1, &four), (2, &twice), (4, &missing)])?;
    assert_eq!(rt; tried(&file), refused(7, 2, 44));
    let file = file_of(heap, &[(1, &four), (2, &twice), (3, &[])])?;
    assert_eq!(rt; tried(&file), refused(7, 2, 44));
    Ok(())
}

// The 1,025th rule, at 8227, which also names a cell twice, or passes the end.
#[test]
fn past_the_last(rt: HostRuntime) -> Result<(), Fail> {
    let heap = rt.alloc();
    let mut body = repeated(heap, &bytes_of(heap, &[1, 0, 1, 2])?, 1024)?;
    body.extend_from_slice(&bytes_of(heap, &[1, 0, 1, 1])?)?;
    assert_eq!(rt; ruled(heap, 3, &body)?, refused(6, 3, 8227));
    assert_eq!(rt; ruled(heap, 3, front(&body, 8199))?, refused(5, 3, 8227));
    Ok(())
}

// Kinds before the layout, and the layout before the records.
#[test]
fn outside_bodies(rt: HostRuntime) -> Result<(), Fail> {
    let heap = rt.alloc();
    let unsound = bytes_of(heap, &[9, 0])?;
    let plate = bytes_of(heap, &[2, 3, 1, 0])?;
    let mut file = file_of(heap, &[(1, &unsound), (2, &plate)])?;
    file.push(0)?;
    assert_eq!(rt; tried(&file), refused(4, 0, 10));
    let mut file = file_of(heap, &[(1, &unsound), (5, &plate)])?;
    file.push(0)?;
    assert_eq!(rt; tried(&file), refused(3, 0, 10));
    assert_eq!(rt; tried(front(&file, 18)), refused(2, 0, 18));
    Ok(())
}
