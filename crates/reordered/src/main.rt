// The bookkeeper's question: under which conditions does the exchange discard an invoice?
// Every discard came from a busy supplier whose message sequence had just wrapped to zero, and no other message showed
// either sign. So two rules are equally true; both are printed, with what would tell them apart.
#![tactic(auto)]

mod backwards;
mod filling;

use backwards::agreed;
use exchange::{Answers, Decision, Listing, MESSAGES, Trouble, ask, new_book};
use filling::fill;
use model::{Band, Exact};
use std::alloc::Global;
use std::io;

// How many messages a new book accepts, and what it answers then. The book's memory goes with it.
fn answers(heap: Global) -> Result<(usize, Answers), Trouble> {
    let mut book = new_book(heap)?;
    let accepted = fill(&mut book, &MESSAGES);
    Ok((accepted, ask(&mut book)?))
}

fn print_answers(rt: &HostRuntime, accepted: usize, found: &Answers) -> io::Result<()> {
    println!(rt; "Messages noted: {accepted}")?;
    println!(rt; "Under which conditions does the exchange discard an invoice?")?;
    println!(rt; "{}", Listing(&found.rules))?;
    for forecast in found.forecasts.iter() {
        println!(rt; "{forecast}")?;
    }
    println!(rt; "{}", Decision(found.deciding_state()))
}

fn main(rt: HostRuntime) -> anyhow::Result<()> {
    let heap = rt.alloc();
    let exact = agreed::<Exact>(heap)?;
    let band = agreed::<Band>(heap)?;
    let (accepted, found) = answers(heap)?;
    print_answers(&rt, accepted, &found)?;
    println!(rt; "By exact conditions, {exact}")?;
    println!(rt; "By bands, {band}")?;
    Ok(())
}
