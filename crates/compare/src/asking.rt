// The answers of a book, and of a search called directly, beside those of the definitions.
use super::bodies::{Body, State};
use super::cases::{Case, MOST_BODIES};
use super::definition::Question;
use super::forecasts::Forecast;
use super::memory::Memory;
use super::trouble::Trouble;
use book::Book;
use logs::PackedLog;
use model::{Head, Intake, Kind, Refusal, Shape};
use search::{Survey, forecast, list};
use std::alloc::Global;

// A book, and working memory for the search that is called directly, which is asked the same over the book's log.
#[derive(Drop)]
pub(crate) struct Searches<K: Kind + Drop> {
    book: Book<K, PackedLog>,
    survey: Survey,
    memory: Memory,
}

impl<K: Kind + Drop> Searches<K> {
    pub(crate) fn new(heap: Global) -> Result<Searches<K>, Trouble> {
        let log = PackedLog::new(vec![in heap; 0; 1024]?);
        Ok(Searches {
            book: Book::new(Shape::smallest(), log, Survey::new(heap)?),
            survey: Survey::new(heap)?,
            memory: Memory::new(heap, MOST_BODIES)?,
        })
    }

    // Gives the book a case's shape, and its log just the observations.
    pub(crate) fn take(&mut self, case: &Case) -> Result<(), Refusal> {
        self.book.shape = case.shape;
        self.book.log.format(&case.shape)?;
        for seen in &case.log {
            self.book.log.append(seen.into())?;
        }
        Ok(())
    }

    // Whether both list just the optimal bodies, and leave the rest of rule memory as it was.
    pub(crate) fn list(&mut self, asked: &Question, optimal: &[Body]) -> Result<bool, Refusal> {
        let Question { head, sense, .. } = *asked;
        let rules = self.book.list(head, sense, self.memory.wiped())?;
        let same = self.memory.holds_just(rules, optimal);
        let rules = list::<K, PackedLog>(
            &self.book.shape,
            &self.book.log,
            &mut self.survey,
            head,
            sense,
            self.memory.wiped(),
        )?;
        Ok(same && self.memory.holds_just(rules, optimal))
    }

    // Whether both forecast this at a state.
    pub(crate) fn forecast(
        &mut self,
        head: Head,
        state: &State,
        wanted: Forecast,
    ) -> Result<bool, Refusal> {
        let shape = self.book.shape;
        let numbers = state.map(u16::from);
        let given = &numbers[..shape.feature_count()];
        let of_book = self.book.forecast(head, given)?;
        let survey = &mut self.survey;
        let direct = forecast::<K, PackedLog>(&shape, &self.book.log, survey, head, given)?;
        Ok(wanted == of_book.into() && wanted == direct.into())
    }
}
