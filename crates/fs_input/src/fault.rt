//! How an input of records ends.

/// Why an input gives no further record.
#[derive(Clone, Copy, Debug, PartialEq, Eq, Drop)]
pub enum Fault<R> {
    /// The files failed.
    Read,
    /// The input has at least as many octets as the limit, and no field within it is wrong.
    Limit,
    /// The first field that stands whole and is wrong, and its place in the input, from 0.
    Bad { reason: R, place: u64 },
}

/// How an input ended.
#[derive(Clone, Copy, Debug, PartialEq, Eq, Drop)]
pub enum Ended<R> {
    /// Behind its last record.
    Done,
    /// By a fault, which stays.
    Stopped(Fault<R>),
}
