// The theory of optimal rules: the contract of each function is a theorem, proved of every kind from its laws.
ghost use Rattle.model.specs.Band.{RangesCoded};
ghost use Rattle.model.specs.Bests.{BestWeights};
ghost use Rattle.model.specs.Decided.{TestsDecide};
ghost use Rattle.model.specs.Examples.{ExamplesStand};
ghost use Rattle.model.specs.Exactly.{ListingsExact, RivalsContain};
ghost use Rattle.model.specs.Program.{ListingsAreProgram};
ghost use Rattle.model.specs.Sets.{WeightsCount, SetsDecide};
ghost use Rattle.model.specs.Telling.{ShownStatesTold};
ghost use Rattle.model.specs.Theory.{DominationOrders, MatchingPassesUp, ConsistencyPassesDown, OptimaAbove, OneWeakeningSuffices};

use super::kind::Kind;

// The tests that a listing computes with decide the relations.
pub fn tests_decide<K: Kind>()
    ensures { TestsDecide K.Kind.meaning }
{}

// Domination is a partial order on the rules of a head.
pub fn domination_orders<K: Kind>()
    ensures { DominationOrders K.Kind.meaning }
{}

// A rule that dominates a matching rule matches.
pub fn matching_passes_up<K: Kind>()
    ensures { MatchingPassesUp K.Kind.meaning }
{}

// Consistency passes from a rule to every rule that it dominates.
pub fn consistency_passes_down<K: Kind>()
    ensures { ConsistencyPassesDown K.Kind.meaning }
{}

// Every consistent rule is dominated by an optimal one.
pub fn optima_above<K: Kind>()
    ensures { OptimaAbove K.Kind.meaning }
{}

// A rule is optimal exactly when it is consistent and weakening any single condition makes it inconsistent.
pub fn one_weakening_suffices<K: Kind>()
    ensures { OneWeakeningSuffices K.Kind.meaning }
{}

// The listing holds exactly the optimal rules, each once, strictly rising.
pub fn listings_exact<K: Kind>()
    ensures { ListingsExact K.Kind.meaning }
{}

// Any set of consistent rules in which every consistent rule finds a dominating one contains the listing.
pub fn rivals_contain<K: Kind>()
    ensures { RivalsContain K.Kind.meaning }
{}

// The weight of a rule is how many different states on its own side it matches.
pub fn weights_count<K: Kind>()
    ensures { WeightsCount K.Kind.meaning }
{}

// The best weight of a sense at a state is that of a matching optimal rule, and no matching optimal rule has more; none where none matches.
pub fn best_weights<K: Kind>()
    ensures { BestWeights K.Kind.meaning }
{}

// Listings, weights and forecasts depend on the set of observations only, not on order or repeats.
pub fn sets_decide<K: Kind>()
    ensures { SetsDecide K.Kind.meaning }
{}

// At a shown state the forecast is 100 percent where it was shown with the head, and 0 where it was not.
pub fn shown_states_told<K: Kind>()
    ensures { ShownStatesTold K.Kind.meaning }
{}

// The can listings of all heads together are the optimal program.
pub fn listings_are_program<K: Kind>()
    ensures { ListingsAreProgram K.Kind.meaning }
{}

// The codes of the band kind are those of its ranges, each with its own.
pub fn ranges_coded()
    ensures { RangesCoded }
{}

// The definitions give the worked examples.
pub fn examples_stand()
    ensures { ExamplesStand }
{}
