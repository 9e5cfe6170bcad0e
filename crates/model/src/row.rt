// A row of a log.

// What the exchange logged of one message: a class, a day and twelve cells.
// Cells 0 to 7 are features and 8 to 11 are targets; those beyond the shape are ignored.
#[derive(Clone, Copy, PartialEq, Eq, Debug)]
pub struct Row {
    pub class: u8,
    pub day: u16,
    pub cells: [u8; 12],
}
