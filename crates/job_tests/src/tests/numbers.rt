// Line 6: how many cells a plate and a total list, and how many cells and rules a job has.
use super::{Sizes, bytes_of, cells, file_of, granted, refused, repeated, total, tried};
use records::refused::Refused;
use std::test::Fail;

// On 70 cells, after which the rule stands at 299.
#[test]
fn listed(rt: HostRuntime) -> Result<(), Fail> {
    let heap = rt.alloc();
    let seventy = cells(heap, 70)?;
    for (count, read) in [
        (0, false),
        (1, true),
        (2, true),
        (63, true),
        (64, true),
        (65, false),
        (66, false),
    ] {
        let mut plate = bytes_of(heap, &[68, 69, count])?;
        let mut terms = Vec::new(heap);
        for cell in 0..count {
            plate.extend_from_slice(&cell.to_le_bytes())?;
            terms.push((cell, 1))?;
        }
        for (kind, record) in [(2, plate), (4, total(heap, count, 0, 9, &terms)?)] {
            let file = file_of(heap, &[(1, &seventy), (kind, &record)])?;
            let expected = if read {
                granted(70, kind, 1)
            } else {
                refused(6, kind, 299)
            };
            assert_eq!(rt; tried(&file), expected, "{count} in a rule of kind {kind}");
        }
    }
    Ok(())
}

#[test]
fn number_of_cells(rt: HostRuntime) -> Result<(), Fail> {
    let heap = rt.alloc();
    for (number, expected) in [
        (1, granted(1, 1, 0)),
        (1024, granted(1024, 1, 0)),
        (1025, refused(6, 1, 4106)),
    ] {
        let file = file_of(heap, &[(1, &cells(heap, number)?)])?;
        assert_eq!(rt; tried(&file), expected, "{number} cells");
    }
    Ok(())
}

#[test]
fn number_of_rules(rt: HostRuntime) -> Result<(), Fail> {
    let heap = rt.alloc();
    let four = cells(heap, 4)?;
    for (kind, record, last) in [
        (2, bytes_of(heap, &[2, 3, 1, 0])?, 8227),
        (3, bytes_of(heap, &[1, 0, 1, 2])?, 8227),
        (4, total(heap, 1, 0, 9, &[(0, 1)])?, 24611),
    ] {
        let file = file_of(heap, &[(1, &four), (kind, &repeated(heap, &record, 1024)?)])?;
        assert_eq!(rt; tried(&file), granted(4, kind, 1024));
        let file = file_of(heap, &[(1, &four), (kind, &repeated(heap, &record, 1025)?)])?;
        assert_eq!(rt; tried(&file), refused(6, kind, last));
    }
    Ok(())
}

// Plates of 8 bytes from 53 on, triples of 8, and totals of 24.
#[test]
fn rules_of_several_kinds(rt: HostRuntime) -> Result<(), Fail> {
    let heap = rt.alloc();
    let four = cells(heap, 4)?;
    let plate = bytes_of(heap, &[2, 3, 1, 0])?;
    let triple = bytes_of(heap, &[1, 0, 1, 2])?;
    let total = total(heap, 1, 0, 9, &[(0, 1)])?;
    let cases: [(usize, usize, usize, Option<(u8, u16)>); 8] = [
        (341, 341, 342, None),
        (1, 1, 1022, None),
        (1022, 1, 1, None),
        (341, 341, 343, Some((4, 13717))),
        (1023, 1, 1, Some((4, 8245))),
        (1, 1023, 1, Some((4, 8245))),
        (512, 513, 1, Some((3, 8245))),
        (1025, 1, 1, Some((2, 8245))),
    ];
    for (plates, triples, totals, fault) in cases {
        let file = file_of(
            heap,
            &[
                (1, &four),
                (2, &repeated(heap, &plate, plates)?),
                (3, &repeated(heap, &triple, triples)?),
                (4, &repeated(heap, &total, totals)?),
            ],
        )?;
        let expected = match fault {
            None => Ok(Sizes {
                cells: 4,
                plates,
                triples,
                totals,
            }),
            Some((kind, place)) => refused(6, kind, place),
        };
        assert_eq!(rt;
            tried(&file),
            expected,
            "{plates} plates, {triples} triples, {totals} totals"
        );
    }
    Ok(())
}
