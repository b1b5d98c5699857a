// Line 5: a body that is empty, and one that ends within a record.
use super::{bytes_of, cells, file_of, front, granted, refused, ruled, total, tried};
use std::process::Abort;
use std::test::Fail;

// Two such records, cut to every length, on four cells.
fn cut(rt: &(impl Abort + AllocGlobal), kind: u8, record: &[u8]) -> Result<(), Fail> {
    let heap = rt.alloc();
    let mut body = Vec::from_slice(heap, record)?;
    body.extend_from_slice(record)?;
    for size in 0..=body.len() {
        let found = ruled(heap, kind, front(&body, size))?;
        let expected = if size == body.len() {
            granted(4, kind, 2)
        } else if size == record.len() {
            granted(4, kind, 1)
        } else if size < record.len() {
            refused(5, kind, 35)
        } else {
            refused(5, kind, u16::try_from(record.len())?.wrapping_add(35))
        };
        assert_eq!(rt; found, expected, "kind {kind}, {size} bytes");
    }
    Ok(())
}

#[test]
fn rules_cut(rt: HostRuntime) -> Result<(), Fail> {
    let heap = rt.alloc();
    cut(&rt, 2, &bytes_of(heap, &[2, 3, 2, 0, 1])?)?;
    cut(&rt, 3, &bytes_of(heap, &[1, 0, 1, 2])?)?;
    cut(&rt, 4, &total(heap, 2, 0, 9, &[(0, 1), (1, 1)])?)
}

#[test]
fn cells_cut(rt: HostRuntime) -> Result<(), Fail> {
    let heap = rt.alloc();
    let body = cells(heap, 2)?;
    assert_eq!(rt; body.len(), 8);
    for (size, expected) in [
        (0, refused(5, 1, 10)),
        (1, refused(5, 1, 10)),
        (3, refused(5, 1, 10)),
        (4, granted(1, 1, 0)),
        (5, refused(5, 1, 14)),
        (7, refused(5, 1, 14)),
        (8, granted(2, 1, 0)),
    ] {
        let file = file_of(heap, &[(1, front(&body, size))])?;
        assert_eq!(rt; tried(&file), expected, "{size} bytes");
    }
    Ok(())
}

// An empty body before others, and as the last.
#[test]
fn empty(rt: HostRuntime) -> Result<(), Fail> {
    let heap = rt.alloc();
    let four = cells(heap, 4)?;
    let plate = bytes_of(heap, &[2, 3, 1, 0])?;
    let total = total(heap, 1, 0, 9, &[(0, 1)])?;
    let file = file_of(heap, &[(1, &[]), (2, &plate)])?;
    assert_eq!(rt; tried(&file), refused(5, 1, 19));
    let file = file_of(heap, &[(1, &four), (2, &[]), (4, &total)])?;
    assert_eq!(rt; tried(&file), refused(5, 2, 44));
    let file = file_of(heap, &[(1, &four), (2, &plate), (3, &[]), (4, &total)])?;
    assert_eq!(rt; tried(&file), refused(5, 3, 61));
    let file = file_of(heap, &[(1, &four), (2, &plate), (4, &[])])?;
    assert_eq!(rt; tried(&file), refused(5, 4, 52));
    Ok(())
}
