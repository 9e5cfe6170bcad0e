// Taking the survey of a log.
ghost use Rattle.std.specs.Prelude.{◌≡◌, ◌+◌, ◌<◌, ◌≤◌, [], length, IfOk, vec_len, MatchOption, MatchResult};
ghost use Rattle.std.specs.List.{AllByRecursion};
ghost use Rattle.model.specs.Heads.{KnownHead};
ghost use Rattle.model.specs.Strays.{LawfulRow, FirstStray};
ghost use Rattle.search.specs.Surveys.{marked, surveyed, Unseen, SeenAt};

use super::super::bodies::State;
use super::rows::{cells_of, scan, state_of};
use super::{Seen, Survey};
use model::{Head, Log, Shape, Stray};
use std::alloc::{AllocError, Global};

// Where a state stands among those seen: a list is searched, since no listing allocates.
fn find(seen: &[Seen], state: &State) -> Option<usize>
    ensures { MatchOption result (Unseen seen.now state.now (length seen.now)) (SeenAt seen.now state.now) }
{
    seen.iter().position(|s| s.state == *state)
}

impl Survey {
    // Room for the survey of any log.
    pub fn new(heap: Global) -> Result<Survey, AllocError>
        ensures { IfOk result (λ s. s.seen.items ≡ []) }
    {
        let seen = Vec::with_capacity(heap, 65535)?;
        let opposed = Vec::with_capacity(heap, 65535)?;
        Ok(Survey { seen, opposed })
    }

    // The different states that the log shows, each with whether it was shown with the head; or the first stray cell.
    pub(crate) fn take<L: Log>(&mut self, shape: &Shape, log: &L, head: Head) -> Result<(), Stray>
        requires { KnownHead shape.now head }
        ensures { MatchResult result (λ _. AllByRecursion (LawfulRow shape.now) (L.Log.rows log.now) × (self.new.seen.items ≡ surveyed shape.now head.target head.value (L.Log.rows log.now))) (FirstStray shape.now (L.Log.rows log.now)) }
    {
        let target = usize::from(head.target);
        self.seen.clear();
        // By position, since that is how a log answers.
        'rows: for row in 0..log.count() {
            let cells = cells_of(log, row);
            scan(shape, row, &cells)?;
            let state = state_of(shape, &cells);
            self.mark(state, u16::from(cells[8 + target]) == head.value);
        }
        Ok(())
    }

    // One more row: its state, and whether it has the head's value.
    fn mark(&mut self, state: State, with_head: bool)
        requires { vec_len self.old.seen < 65535 }
        ensures items { self.new.seen.items ≡ marked self.old.seen.items state with_head }
        ensures len { vec_len self.new.seen ≤ vec_len self.old.seen + 1 }
    {
        match find(&self.seen, &state) {
            Some(i) => {
                if with_head {
                    self.seen[i].with_head = true;
                }
            }
            None => {
                self.seen.push_reserved(Seen { state, with_head });
            }
        }
    }

    // What the last survey found.
    pub(crate) fn seen(&self) -> &[Seen]
        ensures value { result.now ≡ self.now.seen.items }
        ensures bound { length result.now ≤ 65535 }
    {
        &self.seen
    }
}
