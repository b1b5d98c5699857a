// Lines 1 to 4: the file, its contents and where the bodies lie.
use super::{bytes_of, cells, file_of, front, granted, refused, repeated, total, tried};
use std::alloc::{AllocError, Global};
use std::process::Abort;
use std::test::Fail;

// Four cells at 37, a plate at 53, a triple at 63 and a total at 71, to 95.
fn all_kinds(heap: Global) -> Result<Vec<u8>, AllocError> {
    file_of(
        heap,
        &[
            (1, &cells(heap, 4)?),
            (2, &bytes_of(heap, &[2, 3, 2, 0, 1])?),
            (3, &bytes_of(heap, &[1, 0, 1, 2])?),
            (4, &total(heap, 1, 0, 9, &[(0, 1)])?),
        ],
    )
}

// The file with one byte changed is refused by the number, outside bodies.
fn changed(
    rt: &(impl Abort + AllocGlobal),
    number: u8,
    changes: &[(usize, u8, u16)],
) -> Result<(), Fail> {
    for (at, byte, place) in changes {
        let mut file = all_kinds(rt.alloc())?;
        if let Some(there) = file.get_mut(*at) {
            *there = *byte;
        }
        assert_eq!(rt; tried(&file), refused(number, 0, *place), "{byte} at {at}");
    }
    Ok(())
}

// A plate with two counts on four cells, byte by byte.
#[test]
fn the_smallest_plate(rt: HostRuntime) {
    let file = [
        2, 1, 0x13, 0, 0, 0, 0x10, 0, 0, 0, 2, 0x23, 0, 0, 0, 0x0a, 0, 0, 0, 0, 0, 2, 0, 0, 0, 2,
        0, 3, 0, 3, 0, 0, 0, 2, 0, 2, 0, 3, 0, 2, 0, 0, 0, 1, 0,
    ];
    assert_eq!(rt; tried(&file), granted(4, 2, 1));
}

#[test]
fn longest(rt: HostRuntime) -> Result<(), Fail> {
    let heap = rt.alloc();
    let mut terms = [(0, 1); 64];
    for (term, cell) in terms.iter_mut().zip(0..) {
        *term = (cell, 1);
    }
    let mut totals = repeated(heap, &total(heap, 64, 0, 9, &terms)?, 162)?;
    totals.extend_from_slice(&total(heap, 1, 0, 9, &terms[..1])?)?;
    let mut file = file_of(heap, &[(1, &cells(heap, 92)?), (4, &totals)])?;
    assert_eq!(rt; file.len(), 65535);
    assert_eq!(rt; tried(&file), granted(92, 4, 163));
    file.push(0)?;
    assert_eq!(rt; tried(&file), refused(1, 0, 65535));
    Ok(())
}

// Line 1 comes before line 3.
#[test]
fn long_with_no_entry(rt: HostRuntime) -> Result<(), Fail> {
    let zeros = vec![in rt.alloc(); 0; 65536]?;
    assert_eq!(rt; tried(front(&zeros, 65535)), refused(3, 0, 0));
    assert_eq!(rt; tried(&zeros), refused(1, 0, 65535));
    Ok(())
}

// Contents of n entries end at 1 + 9 * n, before which no kind is looked at.
#[test]
fn short(rt: HostRuntime) -> Result<(), Fail> {
    assert_eq!(rt; tried(&[]), refused(2, 0, 0));
    let mut file = [0; 37];
    for (count, end) in [(1, 10), (2, 19), (3, 28), (4, 37)] {
        file[0] = count;
        for length in 1..end {
            let place = u16::try_from(length)?;
            assert_eq!(rt; tried(front(&file, length)), refused(2, 0, place));
        }
        assert_eq!(rt;
            tried(front(&file, end)),
            refused(3, 0, 1),
            "{count} entries"
        );
    }
    Ok(())
}

#[test]
fn number_of_entries(rt: HostRuntime) -> Result<(), Fail> {
    for count in [0, 5, 255] {
        assert_eq!(rt; tried(&[count]), refused(3, 0, 0), "{count} entries");
    }
    changed(&rt, 3, &[(0, 0, 0), (0, 5, 0), (0, 255, 0)])?;
    // with fewer entries the first body lies elsewhere
    changed(&rt, 4, &[(0, 1, 1), (0, 2, 1), (0, 3, 1)])
}

#[test]
fn kinds_rise(rt: HostRuntime) -> Result<(), Fail> {
    changed(&rt, 3, &[(1, 0, 1), (1, 2, 1), (1, 5, 1)])?;
    changed(&rt, 3, &[(10, 0, 10), (10, 1, 10), (10, 5, 10)])?;
    changed(&rt, 3, &[(10, 3, 19), (10, 4, 19)])?;
    changed(
        &rt,
        3,
        &[(19, 1, 19), (19, 2, 19), (19, 5, 19), (19, 4, 28)],
    )?;
    changed(
        &rt,
        3,
        &[(28, 2, 28), (28, 3, 28), (28, 5, 28), (28, 255, 28)],
    )
}

#[test]
fn offsets(rt: HostRuntime) -> Result<(), Fail> {
    changed(&rt, 4, &[(2, 36, 1), (2, 38, 1), (3, 1, 1), (5, 1, 1)])?;
    changed(&rt, 4, &[(11, 52, 10), (11, 54, 10), (14, 255, 10)])?;
    changed(&rt, 4, &[(20, 62, 19), (20, 64, 19), (22, 1, 19)])?;
    changed(&rt, 4, &[(29, 70, 28), (29, 72, 28), (32, 128, 28)])
}

// Of one body, whose entry is the first and the last: a cell of four bytes at 10.
#[test]
fn one_entry(rt: HostRuntime) {
    for (offset, size) in [(9, 4), (11, 3), (10, 5), (10, 3)] {
        let file = [1, 1, offset, 0, 0, 0, size, 0, 0, 0, 0, 0, 9, 0];
        assert_eq!(rt; tried(&file), refused(4, 0, 1), "{size} bytes at {offset}");
    }
}

// A body that ends elsewhere moves where the next is due, and may end with the file, not past it.
#[test]
fn sizes(rt: HostRuntime) -> Result<(), Fail> {
    changed(
        &rt,
        4,
        &[(6, 15, 10), (6, 17, 10), (6, 58, 10), (6, 59, 1), (9, 1, 1)],
    )?;
    changed(
        &rt,
        4,
        &[(15, 9, 19), (15, 11, 19), (15, 42, 19), (15, 43, 10)],
    )?;
    changed(
        &rt,
        4,
        &[(24, 7, 28), (24, 9, 28), (24, 32, 28), (24, 33, 19)],
    )?;
    changed(
        &rt,
        4,
        &[(33, 23, 28), (33, 25, 28), (34, 1, 28), (36, 255, 28)],
    )
}

// Cut within a body, which then passes the end; a byte past the last.
#[test]
fn ends_elsewhere(rt: HostRuntime) -> Result<(), Fail> {
    let mut file = all_kinds(rt.alloc())?;
    assert_eq!(rt; file.len(), 95);
    assert!(rt; tried(&file).is_ok());
    for (place, from, end) in [(1, 37, 53), (10, 53, 63), (19, 63, 71), (28, 71, 95)] {
        for length in from..end {
            assert_eq!(rt;
                tried(front(&file, length)),
                refused(4, 0, place),
                "{length} bytes"
            );
        }
    }
    file.push(0)?;
    assert_eq!(rt; tried(&file), refused(4, 0, 28));
    Ok(())
}
