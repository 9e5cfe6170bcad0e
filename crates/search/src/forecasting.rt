// Forecasting an outcome for a state.
ghost use Rattle.std.specs.Prelude.{◌≡◌, ◌≤◌, None};
ghost use Rattle.std.specs.Option.{unwrap_or};
ghost use Rattle.model.specs.Foretold.{Foretold};
ghost use Rattle.model.specs.Forecasts.{percentage, Forecasted};
ghost use Rattle.model.specs.declared.sense.Sense.TheVariants.{Can, Cannot};
ghost use Rattle.search.specs.Found.{best_matching};
ghost use Rattle.search.specs.Opposing.{states_against};
ghost use Rattle.search.specs.Walks.{places};
ghost use Rattle.search.specs.Weights.{heaviest};

use super::bodies::{Bodies, State};
use super::heads::known_head;
use super::survey::Survey;
use model::{Head, Kind, Log, Refusal, Sense, Shape};

// The share of the weight that is for the head, in whole percent rounded down; 50 where there is no weight at all.
fn share(pro: u32, contra: u32) -> u32
    requires pro_bound { pro ≤ 65535 }
    requires contra_bound { contra ≤ 65535 }
    ensures { result ≡ percentage pro contra }
{
    if pro + contra == 0 {
        return 50;
    }
    100 * pro / (pro + contra)
}

impl<'a, K: Kind> Bodies<'a, K> {
    // The best weight of the rules of one sense at a state; 0 where none matches.
    fn weight_for(&self, survey: &mut Survey, sense: Sense, state: &State) -> u32
        ensures same { survey.new.seen.items ≡ survey.old.seen.items }
        ensures value { result ≡ unwrap_or (heaviest K.Kind.meaning self.now.sizes.now sense survey.old.seen.items state.now None (places K.Kind.meaning self.now.sizes.now (states_against sense survey.old.seen.items))) 0 }
        ensures bound { result ≤ 65535 }
    {
        survey.oppose(sense);
        self.best_weight(survey.seen(), survey.opposed(), sense, state)
            .unwrap_or(0)
    }
}

// For, against and the percentage of a head at a state.
pub fn forecast<K: Kind, L: Log>(
    shape: &Shape,
    log: &L,
    survey: &mut Survey,
    head: Head,
    state: &[u16],
) -> Result<(u32, u32, u32), Refusal>
    ensures answer { Forecasted K.Kind.meaning shape.now (L.Log.rows log.now) head state.now (best_matching K.Kind.meaning shape.now (L.Log.rows log.now) head Can state.now) (best_matching K.Kind.meaning shape.now (L.Log.rows log.now) head Cannot state.now) result }
    ensures told { Foretold K.Kind.meaning shape.now (L.Log.rows log.now) head state.now result }
{
    known_head(shape, head)?;
    let known = shape.state(state).ok_or(Refusal::State)?;
    let bodies = Bodies::<K>::new(shape)?;
    survey.take(shape, log, head)?;
    let pro = bodies.weight_for(survey, Sense::Can, &known);
    let contra = bodies.weight_for(survey, Sense::Cannot, &known);
    Ok((pro, contra, share(pro, contra)))
}
