// The near misses of a rule: the states against that a single condition of it keeps out.
ghost use Rattle.std.specs.Prelude.{◌≡◌, ℕ, true, length, MatchOption};
ghost use Rattle.search.specs.Misses.{Lone, firm_all};
ghost use Rattle.search.specs.Opposing.{clear, tight};

use super::{Bodies, Codes, State};
use model::Kind;

// For each feature, which values have the near misses that the condition there keeps out. Values of 8 or more need no
// place, since no condition holds of them.
pub(crate) type Near = [[bool; 8]; 8];

// How many states against are looked at before the near misses among them are asked for the first time.
const FIRST_TRY: usize = 32;

impl<'a, K: Kind> Bodies<'a, K> {
    // The feature whose condition is the only one that does not hold of the state, left at the second such one. By
    // index, which is the answer.
    fn lone_miss(&self, body: &Codes, state: &State) -> Option<usize>
        ensures { MatchOption result ((i : ℕ) → Lone K.Kind.meaning self.now.sizes.now body.now state.now (length self.now.sizes.now) i → ⊥) (Lone K.Kind.meaning self.now.sizes.now body.now state.now (length self.now.sizes.now)) }
    {
        let mut miss = None;
        'features: for (i, size) in self.sizes.iter().enumerate() {
            if !K::holds(*size, body[i], state[i]) {
                if miss.is_some() {
                    return None;
                }
                miss = Some(i);
            }
        }
        miss
    }

    // Whether no single condition of a consistent rule can be weakened: each weaker condition has to let a near miss in.
    // The states against are looked at in turn; those so far are asked now and then, each time after twice as many as
    // before, since where they tell that the rule is optimal no more need be looked at.
    pub(crate) fn is_tight(&self, opposed: &[State], body: &Codes) -> bool
        requires { clear K.Kind.meaning self.now.sizes.now opposed.now body.now ≡ true }
        ensures { result ≡ tight K.Kind.meaning self.now.sizes.now opposed.now body.now }
    {
        let mut near: Near = [[false; 8]; 8];
        let mut try_at = FIRST_TRY;
        'rows: for (at, row) in opposed.iter().enumerate() {
            let Some(i) = self.lone_miss(body, row) else {
                continue 'rows;
            };
            if row[i] < 8 {
                near[i][usize::from(row[i])] = true;
            }
            if at >= try_at {
                if self.is_firm(&near, body) {
                    return true;
                }
                try_at = at.saturating_mul(2);
            }
        }
        self.is_firm(&near, body)
    }
}
