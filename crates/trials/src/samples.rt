// What several tests start from.
use book::Book;
use logs::{PackedLog, format};
use model::{Head, Kind, Refusal, Row, Shape};
use search::Survey;
use std::alloc::Global;
use std::test::Fail;

// The value 1 of the first target.
pub(crate) const ONE: Head = Head {
    target: 0,
    value: 1,
};

// Two features of sizes 2 and 3 and a target of size 2.
pub(crate) fn uneven() -> Result<Shape, Refusal> {
    Shape::new(&[2, 3], &[2])
}

// Two features and a target, of two values each.
pub(crate) fn binary() -> Result<Shape, Refusal> {
    Shape::new(&[2, 2], &[2])
}

// A row of class 1, of day 0.
pub(crate) fn row(cells: [u8; 12]) -> Row {
    Row {
        class: 1,
        day: 0,
        cells,
    }
}

// An image of so many bytes, of this shape and without a row.
pub(crate) fn image(heap: Global, shape: &Shape, bytes: usize) -> Result<Vec<u8>, Fail> {
    let mut image = vec![in heap; 0; bytes]?;
    format(&mut image, shape)?;
    Ok(image)
}

// A book of a condition kind over such an image.
pub(crate) fn new_book<K: Kind + Drop>(
    heap: Global,
    shape: Shape,
    bytes: usize,
) -> Result<Book<K, PackedLog>, Fail> {
    let log = PackedLog::new(image(heap, &shape, bytes)?);
    Ok(Book::new(shape, log, Survey::new(heap)?))
}
