// Lines 5 to 7 in one record: its fields, and the cells that it names. There are four cells, 0 to 3.
use super::{bytes_of, file_of, granted, judge, refused, ruled, total, tried};
use std::test::Fail;

#[test]
fn bounds(rt: HostRuntime) -> Result<(), Fail> {
    let heap = rt.alloc();
    for bounds in [[0, 0], [5, 5], [0, 65535], [65535, 65535]] {
        let file = file_of(heap, &[(1, &bytes_of(heap, &bounds)?)])?;
        assert_eq!(rt; tried(&file), granted(1, 1, 0), "{bounds:?}");
    }
    for [low, high] in [[1, 0], [6, 5], [256, 255], [65535, 0], [65535, 65534]] {
        let file = file_of(heap, &[(1, &bytes_of(heap, &[0, 9, low, high])?)])?;
        assert_eq!(rt; tried(&file), refused(6, 1, 14), "{low} above {high}");
    }
    Ok(())
}

#[test]
fn plates(rt: HostRuntime) -> Result<(), Fail> {
    judge(
        &rt,
        2,
        &[&[2, 3, 1, 0], &[2, 3, 2, 0, 1], &[0, 1, 2, 3, 2]],
        &[
            // the slots, the variety or a count is no cell
            (6, &[4, 3, 2, 0, 1]),
            (6, &[2, 4, 2, 0, 1]),
            (6, &[2, 3, 2, 4, 1]),
            (6, &[2, 3, 2, 0, 65535]),
            // two of them are one cell
            (7, &[2, 2, 2, 0, 1]),
            (7, &[2, 3, 2, 2, 1]),
            (7, &[2, 3, 2, 0, 2]),
            (7, &[2, 3, 2, 3, 1]),
            (7, &[2, 3, 2, 0, 3]),
            (7, &[2, 3, 2, 0, 0]),
            // no count; more than stand there, and more than may
            (6, &[2, 3, 0]),
            (5, &[2, 3, 2, 0]),
            (5, &[2, 3, 65, 0]),
            (5, &[2, 3, 65535, 0]),
        ],
    )
}

#[test]
fn triples(rt: HostRuntime) -> Result<(), Fail> {
    judge(
        &rt,
        3,
        &[
            &[1, 0, 1, 2],
            &[2, 3, 1, 0],
            &[3, 0, 1, 2],
            &[4, 0, 1, 65535],
        ],
        &[
            // no kind
            (6, &[0, 0, 1, 2]),
            (6, &[5, 0, 1, 2]),
            (6, &[257, 0, 1, 2]),
            // a, b or c is no cell
            (6, &[1, 4, 1, 2]),
            (6, &[2, 0, 4, 2]),
            (6, &[3, 0, 1, 4]),
            (6, &[4, 4, 1, 65535]),
            (6, &[4, 0, 4, 65535]),
            // a subset has no c, and the others have one
            (6, &[4, 0, 1, 2]),
            (6, &[4, 0, 1, 65534]),
            (6, &[1, 0, 1, 65535]),
            (6, &[2, 0, 1, 65535]),
            (6, &[3, 0, 1, 65535]),
            // two of them are one cell
            (7, &[1, 0, 0, 1]),
            (7, &[2, 0, 1, 0]),
            (7, &[3, 0, 1, 1]),
            (7, &[4, 1, 1, 65535]),
        ],
    )
}

const MOST: u64 = 10_000_000_000_000;

#[test]
fn lawful_totals(rt: HostRuntime) -> Result<(), Fail> {
    let heap = rt.alloc();
    let good: [(u64, u64, &[(u16, u32)]); 7] = [
        (0, 0, &[(0, 1)]),
        (5, 5, &[(0, 1), (3, 1)]),
        (5, 6, &[(0, 1)]),
        (0, MOST, &[(0, 1)]),
        (MOST, MOST, &[(0, 1)]),
        (0, 9, &[(0, 1_000_000)]),
        (0, 9, &[(0, 1), (1, 1_000_000), (2, 1)]),
    ];
    for (floor, ceiling, terms) in good {
        let count = u16::try_from(terms.len())?;
        let found = ruled(heap, 4, &total(heap, count, floor, ceiling, terms)?)?;
        assert_eq!(rt;
            found,
            granted(4, 4, 1),
            "{floor} to {ceiling} of {terms:?}"
        );
    }
    Ok(())
}

#[test]
fn totals(rt: HostRuntime) -> Result<(), Fail> {
    let heap = rt.alloc();
    let bad: [(u8, u16, u64, u64, &[(u16, u32)]); 15] = [
        (6, 1, 6, 5, &[(0, 1)]),
        (6, 1, MOST, MOST - 1, &[(0, 1)]),
        (6, 1, 0, MOST + 1, &[(0, 1)]),
        (6, 1, MOST + 1, MOST + 1, &[(0, 1)]),
        (6, 1, 0, u64::MAX, &[(0, 1)]),
        // weights
        (6, 1, 0, 9, &[(0, 0)]),
        (6, 1, 0, 9, &[(0, 1_000_001)]),
        (6, 2, 0, 9, &[(0, 1), (1, 0)]),
        (6, 2, 0, 9, &[(0, 1), (1, 1_000_001)]),
        // cells
        (6, 1, 0, 9, &[(4, 1)]),
        (6, 2, 0, 9, &[(0, 1), (4, 1)]),
        (7, 2, 0, 9, &[(0, 1), (0, 1)]),
        (7, 3, 0, 9, &[(1, 1), (0, 1), (1, 2)]),
        // more cells than stand there, and more than may
        (5, 2, 0, 9, &[(0, 1)]),
        (5, 65, 0, 9, &[(0, 1)]),
    ];
    for (number, count, floor, ceiling, terms) in bad {
        let found = ruled(heap, 4, &total(heap, count, floor, ceiling, terms)?)?;
        assert_eq!(rt;
            found,
            refused(number, 4, 35),
            "{floor} to {ceiling} of {terms:?}"
        );
    }
    Ok(())
}
