// Doing what a line says, and answering it on the page.
ghost use Rattle.std.specs.Prelude.{◌≡◌, ◌*◌, ◌≤◌, OnErr, MatchOption};
ghost use Rattle.session.specs.Desks.{LeavesStored};
ghost use Rattle.session.specs.Pages.{used, Blank};

use super::super::form::Form;
use super::Desk;
use arrayvec::ArrayVec;
use model::{Head, Refusal, Sense, Shape};

impl Desk {
    // Puts on the page what a line prints: its answer, or its refusal.
    pub(crate) fn answer(&mut self, form: Option<Form<'_>>)
        ensures { MatchOption form.entry (self.new.stored ≡ self.old.stored) (λ f. LeavesStored f self.old self.new) }
    {
        self.page.clear();
        let done = match form {
            Some(form) => self.obey(form),
            None => Err(Refusal::Line),
        };
        if let Err(refusal) = done {
            self.page.print_refusal(refusal.number());
        }
    }

    // Does what a form says. A refusal prints nothing.
    fn obey(&mut self, form: Form<'_>) -> Result<(), Refusal>
        requires { Blank self.old.page }
        ensures blank { OnErr result (Blank self.new.page) }
        ensures stored { LeavesStored form.entry self.old self.new }
    {
        match form {
            Form::Features(sizes) => {
                let stored = ArrayVec::try_from(sizes).map_err(|_| Refusal::Shape);
                self.stored = Some(stored);
                Ok(())
            }
            Form::Targets(sizes) => self.open(sizes),
            Form::Note { class, day, cells } => self.note(class, day, cells),
            Form::Listing { head, sense } => self.list(head, sense),
            Form::Forecast { head, state } => self.forecast(head, state),
        }
    }

    // Makes a book of the stored sizes and these, which uses the stored ones up; where the shape is refused, an earlier
    // book stays.
    fn open(&mut self, sizes: &[u16]) -> Result<(), Refusal>
        ensures page { self.new.page ≡ self.old.page }
        ensures used_up { self.new.stored ≡ None }
    {
        let features = self.stored.take().ok_or(Refusal::Line)??;
        let shape = Shape::new(features.as_slice(), sizes)?;
        self.shelf.open(shape)
    }

    // Notes an observation.
    fn note(&mut self, class: u16, day: u16, cells: &[u16]) -> Result<(), Refusal>
        ensures page { self.new.page ≡ self.old.page }
        ensures stored { self.new.stored ≡ self.old.stored }
    {
        self.shelf.book()?.note(class, day, cells)?;
        Ok(())
    }

    // Lists the optimal rules of a head and a sense, and their number.
    fn list(&mut self, head: Head, sense: Sense) -> Result<(), Refusal>
        requires { Blank self.old.page }
        ensures blank { OnErr result (Blank self.new.page) }
        ensures stored { self.new.stored ≡ self.old.stored }
    {
        let book = self.shelf.book()?;
        let count = book.list(head, sense, self.rules.as_mut_slice())?;
        self.print_rules(head, sense, count);
        self.page.print_count(count);
        Ok(())
    }

    // The rules that stand in rule memory.
    fn print_rules(&mut self, head: Head, sense: Sense, count: u32)
        requires room { 8 * count ≤ 65536 }
        requires blank { Blank self.old.page }
        ensures used { used self.new.page ≤ 70 * count }
        ensures stored { self.new.stored ≡ self.old.stored }
    {
        let Desk { rules, page, .. } = self;
        'rules: for rule in rules[..8 * count as usize].chunks_exact(8) {
            page.print_rule(head, sense, rule);
        }
    }

    // Forecasts an outcome for a state.
    fn forecast(&mut self, head: Head, state: &[u16]) -> Result<(), Refusal>
        requires { Blank self.old.page }
        ensures blank { OnErr result (Blank self.new.page) }
        ensures stored { self.new.stored ≡ self.old.stored }
    {
        let (pro, contra, percentage) = self.shelf.book()?.forecast(head, state)?;
        self.page.print_forecast(pro, contra, percentage);
        Ok(())
    }
}
