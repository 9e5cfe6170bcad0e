// States that would tell rules apart.
ghost use Rattle.std.specs.Prelude.{◌≡◌, find};
ghost use Rattle.exchange.specs.Deciding.{matching as matched_by, tells_apart as apart_by, decides as decided_by};

use super::messages::State;
use super::rule::Rule;

// Rules and a state, and no struct of both: three short functions, of which one is asked from outside.
// How many of the rules match a state.
fn matching(rules: &[Rule], state: State) -> usize
    ensures { result ≡ matched_by rules.now state }
{
    rules.iter().filter(|rule| rule.holds(state)).count()
}

// Whether some rules match a state and some do not.
fn tells_apart(rules: &[Rule], state: State) -> bool
    ensures { result ≡ apart_by rules.now state }
{
    let matching = matching(rules, state);
    0 < matching && matching < rules.len()
}

// Whether a state was never seen, and the rules say different things of it.
#[tactic(auto, unfolding(crate::specs::Deciding::decides))]
fn decides(rules: &[Rule], state: State) -> bool
    ensures { result ≡ decided_by rules.now state }
{
    !state.was_seen() && tells_apart(rules, state)
}

// The first of some states that decides, for however many rules.
pub fn first_deciding(rules: &[Rule], states: &[State]) -> Option<State>
    ensures { result ≡ find (decided_by rules.now) states.now }
{
    states.iter().copied().find(|state| decides(rules, *state))
}
