// Answers in whole sentences.
ghost use Rattle.std.specs.Prelude.{Some};
ghost use Rattle.exchange.specs.Texts.{listing_text, decision_text};

use super::messages::State;
use super::rule::Rule;
use std::fmt;

// Every rule, a line each, and how many there are.
#[derive(Clone, Copy)]
pub struct Listing<'a>(pub &'a [Rule]);

impl fmt::Display for Listing<'_> {
    ghost output = { λ l. Some (listing_text l.0.now) };

    fn fmt<W: fmt::Write>(&self, f: &mut fmt::Formatter<W>) -> fmt::Result {
        for rule in self.0 {
            writeln!(f, "  It discards an invoice if{rule}.")?;
        }
        let count = self.0.len();
        write!(
            f,
            "{count} rules agree with every message, and none of them can be weakened."
        )
    }
}

// The state that would tell the rules apart, if there is one.
#[derive(Clone, Copy)]
pub struct Decision(pub Option<State>);

impl fmt::Display for Decision {
    ghost output = { λ d. Some (decision_text d.0) };

    fn fmt<W: fmt::Write>(&self, f: &mut fmt::Formatter<W>) -> fmt::Result {
        match self.0 {
            Some(state) => write!(
                f,
                "One more observation would tell the rules apart: {state}."
            ),
            None => write!(f, "No single observation would tell the rules apart."),
        }
    }
}
