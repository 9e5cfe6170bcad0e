// The states of a survey that are against the head.
ghost use Rattle.std.specs.Prelude.{◌≡◌, ◌+◌, ◌≤◌, ◌++◌, length, vec_len, vec_capacity};
ghost use Rattle.search.specs.Opposing.{states_against};
ghost use Rattle.search.specs.Surveys.{against};

use super::super::bodies::State;
use super::{Seen, Survey};
use model::Sense;

impl Seen {
    // Whether a state that was shown is against the head. Can: it never came with the head's value. Cannot: it did.
    pub(crate) fn is_against(&self, sense: Sense) -> bool
        ensures { result ≡ against sense self.now }
    {
        match sense {
            Sense::Can => !self.with_head,
            Sense::Cannot => self.with_head,
        }
    }
}

// Puts the states against the head at the end of a list that has room for them.
fn pick(seen: &[Seen], sense: Sense, opposed: &mut Vec<State>)
    requires room { vec_len opposed.old + length seen.now ≤ vec_capacity opposed.old }
    ensures items { opposed.new.items ≡ opposed.old.items ++ states_against sense seen.now }
    ensures room { vec_capacity opposed.new ≡ vec_capacity opposed.old }
{
    'seen: for s in seen {
        if s.is_against(sense) {
            opposed.push_reserved(s.state);
        }
    }
}

impl Survey {
    // Picks out the states against the head, so that a search looks at no others.
    pub(crate) fn oppose(&mut self, sense: Sense)
        ensures same { self.new.seen.items ≡ self.old.seen.items }
        ensures value { self.new.opposed.items ≡ states_against sense self.old.seen.items }
    {
        self.opposed.clear();
        pick(&self.seen, sense, &mut self.opposed);
    }

    // The states that were picked out last.
    pub(crate) fn opposed(&self) -> &[State]
        ensures { result.now ≡ self.now.opposed.items }
    {
        &self.opposed
    }
}
