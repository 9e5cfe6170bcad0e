// The place of the book, whose memory is got at the start.
ghost use Rattle.std.specs.Prelude.{◌≡◌, false, IfOk};

use book::Book;
use logs::PackedLog;
use model::{Exact, Refusal, Shape};
use search::Survey;
use std::alloc::{AllocError, Global};

// The bytes of the image.
const IMAGE: usize = 65_536;

// An Option of a book would need a second place for the memory that the book is made in.
#[derive(Drop)]
pub(crate) struct Shelf {
    // whether a `T` line has made a book; until then the book is not lent
    begun: bool,
    book: Book<Exact, PackedLog>,
}

impl Shelf {
    // No book yet.
    pub(super) fn new(heap: Global) -> Result<Shelf, AllocError>
        ensures { IfOk result (λ s. s.begun ≡ false) }
    {
        let survey = Survey::new(heap)?;
        let log = PackedLog::new(vec![in heap; 0; IMAGE]?);
        Ok(Shelf {
            begun: false,
            book: Book::new(Shape::smallest(), log, survey),
        })
    }

    // Makes a book of a shape, with no rows.
    pub(super) fn open(&mut self, shape: Shape) -> Result<(), Refusal> {
        self.book.log.format(&shape)?;
        self.book.shape = shape;
        self.begun = true;
        Ok(())
    }

    // The book; refused until one is made.
    pub(super) fn book(&mut self) -> Result<&mut Book<Exact, PackedLog>, Refusal> {
        if self.begun {
            Ok(&mut self.book)
        } else {
            Err(Refusal::Line)
        }
    }
}
