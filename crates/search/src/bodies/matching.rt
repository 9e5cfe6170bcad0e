// Whether a rule matches a state, and whether it is consistent.
ghost use Rattle.std.specs.Prelude.{◌≡◌};
ghost use Rattle.model.specs.Rules.{matches};
ghost use Rattle.search.specs.Opposing.{clear};

use super::{Bodies, Codes, State};
use model::Kind;

impl<'a, K: Kind> Bodies<'a, K> {
    // Whether each condition holds of the state's value.
    pub(crate) fn matches(&self, body: &Codes, state: &State) -> bool
        ensures { result ≡ matches K.Kind.meaning self.now.sizes.now body.now state.now }
    {
        'features: for ((size, code), value) in self.sizes.iter().zip(body).zip(state) {
            if !K::holds(*size, *code, *value) {
                return false;
            }
        }
        true
    }

    // Whether the rule matches no state against: loops over states and features, left by a label at the first state that
    // matches, with a flag, since a loop that is left has no value.
    pub(crate) fn is_clear(&self, opposed: &[State], body: &Codes) -> bool
        ensures { result ≡ clear K.Kind.meaning self.now.sizes.now opposed.now body.now }
    {
        let mut none = true;
        'rows: for row in opposed {
            'features: for ((size, code), value) in self.sizes.iter().zip(body).zip(row) {
                if !K::holds(*size, *code, *value) {
                    continue 'rows;
                }
            }
            none = false;
            break 'rows;
        }
        none
    }
}
