// The forecasts of a discard.
ghost use Rattle.std.specs.Prelude.{◌≡◌, Some, MatchResult, Err};
ghost use Rattle.book.specs.Keeps.{Keeps};
ghost use Rattle.logs.specs.Packed.{shown};
ghost use Rattle.exchange.specs.Answers.{ForetoldAt, IsForecast, AreForecasts, NotForetold};
ghost use Rattle.exchange.specs.Texts.{forecast_text};

use super::messages::{DISCARDED, STATES, State};
use arrayvec::ArrayVec;
use book::Book;
use logs::PackedLog;
use model::{Exact, Refusal};
use std::fmt;

// What speaks for and against a discard at a state, and the share for it in percent. It is all or nothing at a state that
// was seen.
#[derive(Clone, Copy, PartialEq, Eq, Debug, Default)]
pub struct Forecast {
    pub state: State,
    pub pro: u32,
    pub contra: u32,
    pub percentage: u32,
}

impl fmt::Display for Forecast {
    ghost output = { λ f. Some (forecast_text f) };

    fn fmt<W: fmt::Write>(&self, f: &mut fmt::Formatter<W>) -> fmt::Result {
        let Forecast {
            state,
            pro,
            contra,
            percentage,
        } = *self;
        if state.was_seen() {
            write!(f, "Seen: {state}. Discarded: {percentage} percent.")
        } else {
            write!(
                f,
                "Never seen: {state}. Discarded: {pro} for, {contra} against, {percentage} percent."
            )
        }
    }
}

// The forecast at a state.
fn forecast_at(book: &mut Book<Exact, PackedLog>, state: State) -> Result<Forecast, Refusal>
    ensures kept { Keeps book.old book.new }
    ensures answer { MatchResult result (λ f. (f.state ≡ state) × IsForecast book.old.shape (shown book.old.log.bytes.items) f) (λ e. ForetoldAt book.old.shape (shown book.old.log.bytes.items) state (Err e)) }
{
    let (pro, contra, percentage) = book.forecast(DISCARDED, &state.values())?;
    Ok(Forecast {
        state,
        pro,
        contra,
        percentage,
    })
}

// The forecast at each state in turn.
pub(crate) fn forecast_all(
    book: &mut Book<Exact, PackedLog>,
) -> Result<ArrayVec<Forecast, 4>, Refusal>
    ensures kept { Keeps book.old book.new }
    ensures answer { MatchResult result (λ v. AreForecasts book.old.shape (shown book.old.log.bytes.items) STATES v.items) (NotForetold book.old.shape (shown book.old.log.bytes.items)) }
{
    let mut forecasts = ArrayVec::new();
    'states: for state in STATES.iter() {
        let forecast = forecast_at(book, *state)?;
        forecasts.push(forecast);
    }
    Ok(forecasts)
}
