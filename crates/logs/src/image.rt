// Images: 32 to 65,536 bytes, a header of 32 bytes and then rows of 16 bytes each. Two-byte numbers have the high byte
// first. In the header, bytes 0 to 2 are the letters OBS, 3 and 4 the version 1, 5 the number of features, 6 the number of
// targets, 8 and 9 the rows used, 16 to 23 the feature sizes and 24 to 27 the target sizes, 0 where unused; all others are
// 0. A row is its class, a 0, its day in two bytes and its twelve cells. The places for rows are as many as fit whole.

// The bytes of a header, and of each row.
pub(crate) const HEADER: usize = 32;

pub(crate) const ROW: usize = 16;

pub mod checking;
pub mod formatting;
pub mod header;
pub mod places;
