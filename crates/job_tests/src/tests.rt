// What becomes of a file, and how files are built.
use job::job::Job;
use records::refused::Refused;
use std::alloc::{AllocError, Global};
use std::process::Abort;
use std::test::Fail;

mod contents;
mod cut;
mod fields;
mod numbers;
mod order;
mod room;

// How many cells and rules of each kind a job has.
#[derive(Clone, Copy, PartialEq, Eq, Debug)]
struct Sizes {
    cells: u16,
    plates: usize,
    triples: usize,
    totals: usize,
}

fn tried(file: &[u8]) -> Result<Sizes, Refused> {
    let job = Job::read(file)?;
    Ok(Sizes {
        cells: job.cells(),
        plates: job.plate_places().len(),
        triples: job.triple_places().len(),
        totals: job.total_places().len(),
    })
}

// Kept: kinds and lines are bare numbers, since the tests also write kinds that are none.
fn refused(number: u8, kind: u8, place: u16) -> Result<Sizes, Refused> {
    Err(Refused {
        number,
        kind,
        place,
    })
}

// A job with so many rules of one kind.
fn granted(cells: u16, kind: u8, rules: usize) -> Result<Sizes, Refused> {
    let of = |k: u8| if k == kind { rules } else { 0 };
    Ok(Sizes {
        cells,
        plates: of(2),
        triples: of(3),
        totals: of(4),
    })
}

// The file of bodies, each with its kind, in lawful contents.
fn file_of(heap: Global, bodies: &[(u8, &[u8])]) -> Result<Vec<u8>, AllocError> {
    let count = u8::try_from(bodies.len()).unwrap_or(u8::MAX);
    let mut file = vec![in heap; count; 1]?;
    let mut offset = 1 + 9 * u32::from(count);
    for (kind, bytes) in bodies {
        let size = u32::try_from(bytes.len()).unwrap_or(u32::MAX);
        file.push(*kind)?;
        file.extend_from_slice(&offset.to_le_bytes())?;
        file.extend_from_slice(&size.to_le_bytes())?;
        offset = offset.wrapping_add(size);
    }
    for (_, bytes) in bodies {
        file.extend_from_slice(bytes)?;
    }
    Ok(file)
}

fn bytes_of(heap: Global, numbers: &[u16]) -> Result<Vec<u8>, AllocError> {
    let mut bytes = Vec::new(heap);
    for number in numbers {
        bytes.extend_from_slice(&number.to_le_bytes())?;
    }
    Ok(bytes)
}

fn repeated(heap: Global, record: &[u8], times: usize) -> Result<Vec<u8>, AllocError> {
    let mut body = Vec::new(heap);
    for _ in 0..times {
        body.extend_from_slice(record)?;
    }
    Ok(body)
}

// Cells of 0 to 9 copies.
fn cells(heap: Global, cells: usize) -> Result<Vec<u8>, AllocError> {
    repeated(heap, &[0, 0, 9, 0], cells)
}

// A total; its count is as written, and need not be that of its terms.
fn total(
    heap: Global,
    count: u16,
    floor: u64,
    ceiling: u64,
    terms: &[(u16, u32)],
) -> Result<Vec<u8>, AllocError> {
    let mut record = bytes_of(heap, &[count])?;
    record.extend_from_slice(&floor.to_le_bytes())?;
    record.extend_from_slice(&ceiling.to_le_bytes())?;
    for (cell, weight) in terms {
        record.extend_from_slice(&cell.to_le_bytes())?;
        record.extend_from_slice(&weight.to_le_bytes())?;
    }
    Ok(record)
}

fn front(bytes: &[u8], length: usize) -> &[u8] {
    &bytes[..length.min(bytes.len())]
}

// What becomes of four cells and a body of rules, which starts at 35.
fn ruled(heap: Global, kind: u8, body: &[u8]) -> Result<Result<Sizes, Refused>, AllocError> {
    let file = file_of(heap, &[(1, &cells(heap, 4)?), (kind, body)])?;
    Ok(tried(&file))
}

// Each of these records, alone on four cells, is read, or is refused by a number.
fn judge(
    rt: &(impl Abort + AllocGlobal),
    kind: u8,
    good: &[&[u16]],
    bad: &[(u8, &[u16])],
) -> Result<(), Fail> {
    let heap = rt.alloc();
    for record in good {
        let found = ruled(heap, kind, &bytes_of(heap, record)?)?;
        assert_eq!(rt; found, granted(4, kind, 1), "{record:?}");
    }
    for (number, record) in bad {
        let found = ruled(heap, kind, &bytes_of(heap, record)?)?;
        assert_eq!(rt; found, refused(*number, kind, 35), "{record:?}");
    }
    Ok(())
}
