// A book for the exchange's messages.
ghost use Rattle.std.specs.Prelude.{IfOk, IsOkUnless};
ghost use Rattle.exchange.specs.Making.{New};

use super::trouble::Trouble;
use book::Book;
use logs::PackedLog;
use model::{Kind, Shape};
use search::Survey;
use std::alloc::Global;

// A new book of two features and a target, of two values each, with places for 254 messages.
pub fn new_book<K: Kind + Drop>(heap: Global) -> Result<Book<K, PackedLog>, Trouble>
    ensures book { IfOk result (λ b. New b.shape b.log.bytes.items) }
    ensures trouble { IsOkUnless result Trouble.Memory }
{
    let shape = Shape::new(&[2, 2], &[2])?;
    let mut log = PackedLog::new(vec![in heap; 0; 4096]?);
    log.format(&shape)?;
    Ok(Book::new(shape, log, Survey::new(heap)?))
}
