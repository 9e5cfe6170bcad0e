// The weight of a rule, and the best weight of the rules that match a state.
ghost use Rattle.std.specs.Prelude.{◌≡◌, ◌≤◌, length, None};
ghost use Rattle.std.specs.Option.{unwrap_or};
ghost use Rattle.search.specs.Walks.{places};
ghost use Rattle.search.specs.Weights.{counts, weight, heaviest};

use super::bodies::{Bodies, Codes, State};
use super::survey::Seen;
use model::{Kind, Sense};

impl<'a, K: Kind> Bodies<'a, K> {
    // How many different states on its own side a rule matches.
    fn weigh(&self, seen: &[Seen], sense: Sense, body: &Codes) -> u32
        requires { length seen.now ≤ 65535 }
        ensures value { result ≡ weight K.Kind.meaning self.now.sizes.now sense seen.now body.now }
        ensures bound { result ≤ 65535 }
    {
        seen.iter()
            .filter(|s| !s.is_against(sense) && self.matches(body, &s.state))
            .count() as u32
    }

    // The largest weight among the optimal rules that match a state; none where no rule matches. A loop, since `max` is
    // specified by what it is not below, and the definition goes from rule to rule.
    pub(crate) fn best_weight(
        &self,
        seen: &[Seen],
        opposed: &[State],
        sense: Sense,
        state: &State,
    ) -> Option<u32>
        requires { length seen.now ≤ 65535 }
        ensures value { result ≡ heaviest K.Kind.meaning self.now.sizes.now sense seen.now state.now None (places K.Kind.meaning self.now.sizes.now opposed.now) }
        ensures bound { unwrap_or result 0 ≤ 65535 }
    {
        let mut best = None;
        'rules: for rule in self.rules(opposed) {
            if self.matches(&rule, state) {
                let weight = self.weigh(seen, sense, &rule);
                best = Some(weight.max(best.unwrap_or(0)));
            }
        }
        best
    }
}
