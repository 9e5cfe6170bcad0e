// Asking a book: listings and forecasts.
ghost use Rattle.book.specs.Keeps.{Keeps};
ghost use Rattle.model.specs.Forecasts.{Forecasted};
ghost use Rattle.model.specs.Foretold.{Foretold};
ghost use Rattle.model.specs.Listed.{Listed};
ghost use Rattle.model.specs.Wholes.{ListedWhole, Programmed, Whole};
ghost use Rattle.model.specs.declared.sense.Sense.TheVariants.{Can, Cannot};
ghost use Rattle.search.specs.Found.{found, best_matching};

use super::book::Book;
use model::{Head, Kind, Log, Refusal, Sense};

impl<K: Kind + Drop, L: Log + Drop> Book<K, L> {
    // Fills rule memory with every optimal rule of a head and a sense; the answer is their number. Head and sense stand apart,
    // since a forecast has a head and both senses.
    pub fn list(&mut self, head: Head, sense: Sense, rules: &mut [u8]) -> Result<u32, Refusal>
        ensures kept { Keeps self.old self.new }
        ensures answer { Listed K.Kind.meaning self.old.shape (L.Log.rows self.old.log) head (found K.Kind.meaning self.old.shape (L.Log.rows self.old.log) head sense) rules.old rules.new result }
        ensures listing { ListedWhole K.Kind.meaning self.old.shape (L.Log.rows self.old.log) head sense rules.old rules.new result }
        ensures whole { Whole K.Kind.meaning self.old.shape (L.Log.rows self.old.log) head sense rules.new result }
        ensures program { Programmed K.Kind.meaning self.old.shape (L.Log.rows self.old.log) head sense rules.new result }
    {
        search::list::<K, L>(&self.shape, &self.log, &mut self.survey, head, sense, rules)
    }

    // For, against and the percentage of a head at a state.
    pub fn forecast(&mut self, head: Head, state: &[u16]) -> Result<(u32, u32, u32), Refusal>
        ensures kept { Keeps self.old self.new }
        ensures answer { Forecasted K.Kind.meaning self.old.shape (L.Log.rows self.old.log) head state.now (best_matching K.Kind.meaning self.old.shape (L.Log.rows self.old.log) head Can state.now) (best_matching K.Kind.meaning self.old.shape (L.Log.rows self.old.log) head Cannot state.now) result }
        ensures told { Foretold K.Kind.meaning self.old.shape (L.Log.rows self.old.log) head state.now result }
    {
        search::forecast::<K, L>(&self.shape, &self.log, &mut self.survey, head, state)
    }
}
