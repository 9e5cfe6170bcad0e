// Compares the listings and forecasts of a book, and of a search called directly, with those that trying every body
// gives, on random logs.
#![tactic(auto)]

mod asking;
mod bodies;
mod cases;
mod comparing;
mod conditions;
mod definition;
mod forecasts;
mod memory;
mod observations;
mod random;
mod scores;
mod trouble;

use comparing::compare;
use model::{Band, Exact};
use random::Random;
use scores::Scores;
use std::io;

const CASES: u32 = 60;

const SEED: u32 = 20;

fn print_scores(rt: &HostRuntime, exact: Scores, band: Scores) -> io::Result<()> {
    let listings = exact.listings().plus(band.listings());
    for (what, score, found) in [
        ("exact can", exact.can, "rules"),
        ("exact cannot", exact.cannot, "rules"),
        ("band can", band.can, "rules"),
        ("band cannot", band.cannot, "rules"),
        ("listings in all", listings, "rules"),
        ("exact forecasts", exact.forecast, "percent added up"),
        ("band forecasts", band.forecast, "percent added up"),
    ] {
        println!(rt; "{what}: {score} {found}")?;
    }
    Ok(())
}

fn main(rt: HostRuntime) -> anyhow::Result<()> {
    let mut random = Random::new(SEED);
    let exact = compare::<Exact>(rt.alloc(), &mut random, CASES)?;
    let band = compare::<Band>(rt.alloc(), &mut random, CASES)?;
    print_scores(&rt, exact, band)?;
    Ok(())
}
