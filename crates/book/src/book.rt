// What a book is made of.
ghost use Rattle.std.specs.Prelude.{◌≡◌};

use model::{Kind, Log, Shape};
use search::Survey;
use std::marker::PhantomData;

// A shape, a condition kind and a log, whose rows it shows as observations. Its working memory is its own from the
// start, so that no call allocates.
#[derive(Drop)]
pub struct Book<K: Kind + Drop, L: Log + Drop> {
    pub shape: Shape,
    pub log: L,
    pub(crate) survey: Survey,
    kind: PhantomData<K>,
}

impl<K: Kind + Drop, L: Log + Drop> Book<K, L> {
    pub fn new(shape: Shape, log: L, survey: Survey) -> Book<K, L>
        ensures shape { result.shape ≡ shape }
        ensures log { result.log ≡ log }
    {
        Book {
            shape,
            log,
            survey,
            kind: PhantomData,
        }
    }
}
