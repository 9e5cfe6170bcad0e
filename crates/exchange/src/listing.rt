// The rules for a discard, as a book lists them. They lie in a list of fixed room, so that only making a book wants memory.
ghost use Rattle.std.specs.Prelude.{◌≡◌, ◌≤◌, map, take, MatchResult};
ghost use Rattle.std.specs.Simd.{first_chunks};
ghost use Rattle.book.specs.Keeps.{Keeps};
ghost use Rattle.logs.specs.Packed.{shown};
ghost use Rattle.exchange.specs.Answers.{rules_for_discard, NotListed};
ghost use Rattle.exchange.specs.Rules.{rule_of};

use super::messages::DISCARDED;
use super::rule::Rule;
use arrayvec::ArrayVec;
use book::Book;
use logs::PackedLog;
use model::{Exact, Refusal, Sense};

// The rules in the first places of rule memory, eight bytes each.
fn read(memory: &[u8; 64], count: usize) -> ArrayVec<Rule, 8>
    requires { count ≤ 8 }
    ensures { result.items ≡ map rule_of (take count (first_chunks 8 8 memory.now)) }
{
    let (places, _) = memory.as_chunks::<8>();
    let mut rules = ArrayVec::new();
    'places: for codes in &places[..count] {
        rules.push(Rule::from(*codes));
    }
    rules
}

// Every optimal rule for a discard.
pub(crate) fn list(book: &mut Book<Exact, PackedLog>) -> Result<ArrayVec<Rule, 8>, Refusal>
    ensures kept { Keeps book.old book.new }
    ensures answer { MatchResult result (λ v. v.items ≡ rules_for_discard book.old.shape (shown book.old.log.bytes.items)) (NotListed book.old.shape (shown book.old.log.bytes.items)) }
{
    let mut memory = [0; 64];
    let count = book.list(DISCARDED, Sense::Can, &mut memory)?;
    Ok(read(&memory, count as usize))
}
