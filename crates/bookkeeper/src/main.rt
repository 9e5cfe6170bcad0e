// The bookkeeper's question: under which conditions does the exchange discard an invoice?
// Every discard came from a busy supplier whose message sequence had just wrapped to zero, and no other message showed
// either sign. So two rules are equally true; both are printed, with what would tell them apart.
#![tactic(auto)]

ghost use Rattle.std.specs.Iterator.{IsFinite};

use exchange::{Answers, CLASS, DAY, Decision, Listing, MESSAGES, Trouble, ask, new_book};
use std::alloc::Global;
use std::io;

// What a book answers that has noted these messages, in their order.
fn answers<'a, I: Iterator<Item = &'a [u16; 3]> + Drop>(
    heap: Global,
    messages: I,
) -> Result<Answers, Trouble>
    requires can { I.can_next messages }
    requires finite { IsFinite (I.remaining messages) }
{
    let mut book = new_book(heap)?;
    for message in messages {
        book.note(CLASS, DAY, message)?;
    }
    Ok(ask(&mut book)?)
}

fn print_answers(rt: &HostRuntime, found: &Answers, backwards: &Answers) -> io::Result<()> {
    println!(rt; "Messages noted: {}", MESSAGES.len())?;
    println!(rt; "Under which conditions does the exchange discard an invoice?")?;
    println!(rt; "{}", Listing(&found.rules))?;
    for forecast in found.forecasts.iter().filter(|it| !it.state.was_seen()) {
        println!(rt; "{forecast}")?;
    }
    println!(rt; "{}", Decision(found.deciding_state()))?;
    if found == backwards {
        println!(rt; "Fed backwards, the book answers the same.")
    } else {
        println!(rt; "Fed backwards, the book answers otherwise!")
    }
}

fn main(rt: HostRuntime) -> anyhow::Result<()> {
    let heap = rt.alloc();
    let forwards = answers(heap, MESSAGES.iter())?;
    let backwards = answers(heap, MESSAGES.iter().rev())?;
    print_answers(&rt, &forwards, &backwards)?;
    Ok(())
}
