use crate::family::{TotalList, Totals};
use crate::worked::both_limits_bind;
use bounds::row::Row;
use rule_families::change::Change;
use rule_families::family::Family;

// The total at the start of a file, alone.
fn at_start(file: &[u8]) -> Totals<'_> {
    TotalList::at(file, &[0])
}

#[test]
fn two_twos_are_never_three(rt: HostRuntime) {
    let (changes, rows) = both_limits_bind();
    assert_eq!(rt; changes, [Change::Narrowed, Change::Narrowed, Change::Void]);
    assert_eq!(rt; rows, [Row { low: 1, high: 1 }; 2]);
}

// Twice the first and three times the second add up to 10 at most.
#[test]
fn a_ceiling_lowers_the_highs(rt: HostRuntime) {
    let file = [
        2, 0, 0, 0, 0, 0, 0, 0, 0, 0, 10, 0, 0, 0, 0, 0, 0, 0, 0, 0, 2, 0, 0, 0, 1, 0, 3, 0, 0, 0,
    ];
    let totals = at_start(&file);
    let mut rows = [Row { low: 1, high: 9 }, Row { low: 1, high: 9 }];
    assert_eq!(rt; totals.narrow(0, &mut rows), Change::Narrowed);
    assert_eq!(rt; rows, [Row { low: 1, high: 3 }, Row { low: 1, high: 2 }]);
}

// Twice the first and three times the second add up to 10 at least.
#[test]
fn a_floor_raises_the_lows(rt: HostRuntime) {
    let file = [
        2, 0, 10, 0, 0, 0, 0, 0, 0, 0, 99, 0, 0, 0, 0, 0, 0, 0, 0, 0, 2, 0, 0, 0, 1, 0, 3, 0, 0, 0,
    ];
    let totals = at_start(&file);
    let mut rows = [Row { low: 0, high: 3 }, Row { low: 0, high: 2 }];
    assert_eq!(rt; totals.narrow(0, &mut rows), Change::Narrowed);
    assert_eq!(rt; rows, [Row { low: 2, high: 3 }, Row { low: 2, high: 2 }]);
}

// The largest total: 64 cells of weight 1,000,000.
fn largest(floor: u64, ceiling: u64) -> [u8; 402] {
    let mut file = [0u8; 402];
    file[0] = 64;
    file[2..10].copy_from_slice(&floor.to_le_bytes());
    file[10..18].copy_from_slice(&ceiling.to_le_bytes());
    for (cell, term) in (0u8..64).zip(file[18..].chunks_exact_mut(6)) {
        term[0] = cell;
        term[2..].copy_from_slice(&1_000_000u32.to_le_bytes());
    }
    file
}

#[test]
fn the_largest_sum_does_not_wrap(rt: HostRuntime) {
    let file = largest(4_194_240_000_000, 10_000_000_000_000);
    let totals = at_start(&file);
    let mut rows = [Row {
        low: 0,
        high: 65535,
    }; 64];
    assert_eq!(rt; totals.narrow(0, &mut rows), Change::Narrowed);
    assert_eq!(rt;
        rows,
        [Row {
            low: 65535,
            high: 65535,
        }; 64]
    );
}

#[test]
fn no_sum_passes_the_largest(rt: HostRuntime) {
    let file = largest(4_194_240_000_001, 10_000_000_000_000);
    let totals = at_start(&file);
    let mut rows = [Row {
        low: 0,
        high: 65535,
    }; 64];
    assert_eq!(rt; totals.narrow(0, &mut rows), Change::Void);
}

#[test]
fn a_weight_of_zero_makes_no_rule(rt: HostRuntime) {
    let file = [
        2, 0, 0, 0, 0, 0, 0, 0, 0, 0, 1, 0, 0, 0, 0, 0, 0, 0, 0, 0, 2, 0, 0, 0, 1, 0, 0, 0, 0, 0,
    ];
    let totals = at_start(&file);
    let mut rows = [Row { low: 0, high: 9 }, Row { low: 0, high: 9 }];
    assert!(rt; !totals.touches(0, 2, 0));
    assert_eq!(rt; totals.narrow(0, &mut rows), Change::Quiet);
}
