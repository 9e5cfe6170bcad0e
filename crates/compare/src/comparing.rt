// Random cases of a condition kind, each asked both ways.
use super::asking::Searches;
use super::bodies::State;
use super::cases::{Case, random_state};
use super::conditions::Conditions;
use super::definition::Question;
use super::forecasts::Forecast;
use super::random::Random;
use super::scores::Scores;
use super::trouble::Trouble;
use model::{Head, Kind, Sense};
use std::alloc::Global;

// The searches of a kind, and how their answers have agreed so far.
#[derive(Drop)]
pub(crate) struct Comparison<K: Kind + Drop> {
    heap: Global,
    searches: Searches<K>,
    scores: Scores,
}

impl<K: Kind + Drop> Comparison<K> {
    pub(crate) fn new(heap: Global) -> Result<Comparison<K>, Trouble> {
        Ok(Comparison {
            heap,
            searches: Searches::new(heap)?,
            scores: Scores::default(),
        })
    }

    // One listing; the answer is the best weight at a state.
    fn compare_listing(
        &mut self,
        case: &Case,
        head: Head,
        sense: Sense,
        state: &State,
    ) -> Result<usize, Trouble> {
        let question = Question {
            log: &case.log,
            head,
            sense,
        };
        let optimal = question.optimal(self.heap, &case.bodies)?;
        let same = self.searches.list(&question, &optimal)?;
        self.scores.of(sense).count(same, optimal.len());
        Ok(question.best_weight(&optimal, state))
    }

    // Both listings of a head, and its forecast at a state.
    fn compare_head(&mut self, case: &Case, head: Head, state: &State) -> Result<(), Trouble> {
        let pro = self.compare_listing(case, head, Sense::Can, state)?;
        let contra = self.compare_listing(case, head, Sense::Cannot, state)?;
        let wanted = Forecast::of(pro, contra);
        let same = self.searches.forecast(head, state, wanted)?;
        self.scores.forecast.count(same, wanted.percent);
        Ok(())
    }

    // Every head of a target, each at a random state.
    fn compare_target(
        &mut self,
        case: &Case,
        target: u16,
        random: &mut Random,
    ) -> Result<(), Trouble> {
        for value in 0..u16::from(case.shape.target_size(usize::from(target))) {
            let state = random_state(&case.shape, random);
            self.compare_head(case, Head { target, value }, &state)?;
        }
        Ok(())
    }

    // Every head of the four targets that there may be.
    fn compare_case(&mut self, case: &Case, random: &mut Random) -> Result<(), Trouble> {
        self.searches.take(case)?;
        for target in 0..4 {
            self.compare_target(case, target, random)?;
        }
        Ok(())
    }
}

// So many random cases.
pub(crate) fn compare<K: Kind + Conditions + Drop>(
    heap: Global,
    random: &mut Random,
    cases: u32,
) -> Result<Scores, Trouble> {
    let mut comparison: Comparison<K> = Comparison::new(heap)?;
    for _ in 0..cases {
        let case = Case::random::<K>(heap, random)?;
        comparison.compare_case(&case, random)?;
    }
    Ok(comparison.scores)
}
