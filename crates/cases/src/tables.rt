// What the tables of both formats are tried by. Each search gives the place of the first row that is not as it should be.
use records::{Malformed, Record, read, write};

// A record by its value and its bytes, and which of these are judged: `#` where one value is right, `.` where any is.
#[derive(Clone, Copy)]
pub struct Case<T> {
    pub value: T,
    pub bytes: [u8; 24],
    pub judged: [u8; 24],
}

// Whether the value is written as its bytes, and these are read as it.
fn goes_both_ways<T: Record + PartialEq>(case: &Case<T>) -> bool {
    write(&case.value) == case.bytes && read(&case.bytes) == Ok(case.value)
}

pub fn not_both_ways<T: Record + PartialEq>(cases: &[Case<T>]) -> Option<usize> {
    cases.iter().position(|case| !goes_both_ways(case))
}

// The bytes with a value at this place that no row has there.
fn spoilt(mut bytes: [u8; 24], place: usize) -> [u8; 24] {
    if let Some(byte) = bytes.get_mut(place) {
        *byte = 0xee;
    }
    bytes
}

// Whether a byte of another value at this place is wrong just where it is judged; what is then accepted writes back.
fn is_judged<T: Record>(case: &Case<T>, place: usize, judged: u8) -> bool {
    let bytes = spoilt(case.bytes, place);
    match read::<T>(&bytes) {
        Ok(value) => judged == b'.' && write(&value) == bytes,
        Err(malformed) => judged == b'#' && malformed == Malformed::Byte { place },
    }
}

// The same for each place of a row.
fn is_judged_throughout<T: Record>(case: &Case<T>) -> bool {
    case.judged
        .iter()
        .enumerate()
        .all(|(place, judged)| is_judged(case, place, *judged))
}

pub fn not_judged<T: Record>(cases: &[Case<T>]) -> Option<usize> {
    cases.iter().position(|case| !is_judged_throughout(case))
}

// Whether so many bytes are refused for their length, whatever they are.
fn counts_first<T: Record + PartialEq>(found: usize) -> bool {
    match [0xee; 48].get(..found) {
        Some(bytes) => read::<T>(bytes) == Err(Malformed::Length { found }),
        None => false,
    }
}

pub fn length_not_first<T: Record + PartialEq>() -> Option<usize> {
    [0, 3, 4, 23, 25, 48]
        .iter()
        .position(|found| !counts_first::<T>(*found))
}
