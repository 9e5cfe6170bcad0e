// Optimal rules and weights by the definitions: every body is tried, and compared with every consistent one.
use super::bodies::{Body, State};
use super::observations::Observation;
use model::{Head, Sense};
use std::alloc::{AllocError, Global};

// What rules are asked for: a head and a sense, over a log.
#[derive(Clone, Copy)]
pub(crate) struct Question<'a> {
    pub(crate) log: &'a [Observation],
    pub(crate) head: Head,
    pub(crate) sense: Sense,
}

impl Question<'_> {
    // Whether the log shows a state with the head's value.
    fn came_with(&self, state: &State) -> bool {
        self.log
            .iter()
            .any(|seen| seen.state == *state && seen.has(self.head))
    }

    // Whether a state that the log shows is against the head.
    fn is_against(&self, state: &State) -> bool {
        match self.sense {
            Sense::Can => !self.came_with(state),
            Sense::Cannot => self.came_with(state),
        }
    }

    // Whether a rule matches no state against.
    fn is_consistent(&self, rule: &Body) -> bool {
        !self.log.iter().any(|seen| rule.matches(&seen.state) && self.is_against(&seen.state))
    }

    // The rules that are optimal among all bodies, in the order of these.
    pub(crate) fn optimal(&self, heap: Global, bodies: &[Body]) -> Result<Vec<Body>, AllocError> {
        let consistent: Vec<Body> = bodies
            .iter()
            .copied()
            .filter(|rule| self.is_consistent(rule))
            .collect(heap)?;
        consistent
            .iter()
            .copied()
            .filter(|rule| !is_dominated(rule, &consistent))
            .collect(heap)
    }

    // How many different shown states a rule matches that are not against: each is counted where it is shown first.
    fn weight(&self, rule: &Body) -> usize {
        self.log
            .iter()
            .enumerate()
            .filter(|(earlier, seen)| {
                rule.matches(&seen.state)
                    && !shows(self.log, *earlier, &seen.state)
                    && !self.is_against(&seen.state)
            })
            .count()
    }

    // The largest weight among the optimal rules that match a state, or 0.
    pub(crate) fn best_weight(&self, optimal: &[Body], state: &State) -> usize {
        optimal
            .iter()
            .filter(|rule| rule.matches(state))
            .map(|rule| self.weight(rule))
            .max()
            .unwrap_or(0)
    }
}

// Whether another of the rules dominates this one. That it is another is asked last, where few are left.
fn is_dominated(rule: &Body, rules: &[Body]) -> bool {
    rules
        .iter()
        .any(|other| other.dominates(rule) && *other != *rule)
}

// Whether one of the first observations of a log, up to a number of them, shows a state.
fn shows(log: &[Observation], first: usize, state: &State) -> bool {
    log.iter().take(first).any(|seen| seen.state == *state)
}
