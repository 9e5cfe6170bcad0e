// What a book of the exchange's messages answers.
ghost use Rattle.std.specs.Prelude.{◌≡◌, IfOk, IfErr};
ghost use Rattle.book.specs.Keeps.{Keeps};
ghost use Rattle.logs.specs.Packed.{shown};
ghost use Rattle.exchange.specs.Answers.{rules_for_discard, AreForecasts, NotAnswered};
ghost use Rattle.exchange.specs.Deciding.{deciding_state};

use super::deciding::first_deciding;
use super::forecasts::{Forecast, forecast_all};
use super::listing::list;
use super::messages::{STATES, State};
use super::rule::Rule;
use arrayvec::ArrayVec;
use book::Book;
use logs::PackedLog;
use model::{Exact, Refusal};

// The rules for a discard, and the forecast of a discard at each state.
#[derive(PartialEq, Drop)]
pub struct Answers {
    pub rules: ArrayVec<Rule, 8>,
    pub forecasts: ArrayVec<Forecast, 4>,
}

// Asks a book for both.
pub fn ask(book: &mut Book<Exact, PackedLog>) -> Result<Answers, Refusal>
    ensures kept { Keeps book.old book.new }
    ensures rules { IfOk result (λ a. a.rules.items ≡ rules_for_discard book.old.shape (shown book.old.log.bytes.items)) }
    ensures forecasts { IfOk result (λ a. AreForecasts book.old.shape (shown book.old.log.bytes.items) STATES a.forecasts.items) }
    ensures refused { IfErr result (NotAnswered book.old.shape (shown book.old.log.bytes.items)) }
{
    let rules = list(book)?;
    let forecasts = forecast_all(book)?;
    Ok(Answers { rules, forecasts })
}

impl Answers {
    // The first state, never seen, of which the rules say different things.
    pub fn deciding_state(&self) -> Option<State>
        ensures { result ≡ deciding_state self.now.rules.items }
    {
        first_deciding(&self.rules, &STATES)
    }
}
