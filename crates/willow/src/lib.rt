// The words that the whole core shares: limits, range ends, subspaces of an area, and refusals. A call that may be refused answers a
// `Result` with a `Refusal`, a comparison the standard `Ordering`.
// What they mean, and what the core promises with them, is in specs/. There is no code here: `refusals` has the numbers and the tests.
#![tactic(auto)]

// The most bytes in a component (MCL), components in a path (MCC) and bytes in a path (MPL).
#[derive(Clone, Copy)]
pub struct Limits {
    pub mcl: u64,
    pub mcc: u64,
    pub mpl: u64,
}

// The end of a range: an excluded value, or open, which is above every value. It is an enum of its own and no `Option`, as document 01
// asks ("subspaces and ends are enums"); and the order of `Option` has none below.
#[derive(Clone, Copy, PartialEq, Eq, PartialOrd, Ord)]
pub enum RangeEnd<T> {
    Closed(T),
    Open,
}

// The subspaces of an area: all of them, or one. An enum of its own too, by the same words.
#[derive(Clone, Copy, PartialEq, Eq, PartialOrd, Ord)]
pub enum AreaSubspace {
    Any,
    Id(u64),
}

// Why a call was refused, with its number.
#[derive(Clone, Copy, Debug, PartialEq, Eq)]
pub enum Refusal {
    BadLimits = 1,
    BadSheet = 2,
    BadKind = 3,
    WrongNamespace = 4,
    BadPath = 5,
    BadLengths = 6,
    PathTooLong = 7,
    TooManyComponents = 8,
    ComponentTooLong = 9,
    NoSuchPrefix = 10,
    Overfilled = 11,
    Unfinished = 12,
    TotalFull = 13,
    NoRoom = 14,
    OutTooSmall = 15,
}
