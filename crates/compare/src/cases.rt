// Random cases: a shape with all its bodies, and a log.
ghost use Rattle.std.specs.Prelude.{◌≤◌, length};

use super::bodies::{Body, State, all_bodies};
use super::conditions::Conditions;
use super::observations::Observation;
use super::random::Random;
use super::trouble::Trouble;
use model::{Refusal, Shape};
use std::alloc::{AllocError, Global};
use std::array;

// As many bodies as eight features of size 2 have.
pub(crate) const MOST_BODIES: u16 = 6561;

const MOST_ROWS: u8 = 40;

#[derive(Drop)]
pub(crate) struct Case {
    pub(crate) shape: Shape,
    pub(crate) bodies: Vec<Body>,
    pub(crate) log: Vec<Observation>,
}

impl Case {
    pub(crate) fn random<C: Conditions>(
        heap: Global,
        random: &mut Random,
    ) -> Result<Case, Trouble> {
        let shape = random_shape::<C>(random)?;
        let mut log = random_log(heap, &shape, random)?;
        log.truncate(usize::from(random.below(MOST_ROWS + 1)));
        Ok(Case {
            shape,
            bodies: all_bodies::<C>(heap, &shape)?,
            log,
        })
    }
}

// Sizes from 2 on, so many different ones.
fn random_sizes(random: &mut Random, spread: u8) -> [u16; 8] {
    array::from_fn(|_| 2 + u16::from(random.below(spread)))
}

// How many of the sizes, from the first on, have no more bodies than the bound.
fn fitting<C: Conditions>(sizes: &[u16]) -> usize
    ensures { result ≤ length sizes.now }
{
    sizes
        .iter()
        .scan(1usize, |bodies, size| {
            *bodies = bodies.saturating_mul(C::count(*size));
            Some(*bodies)
        })
        .take_while(|bodies| *bodies <= usize::from(MOST_BODIES))
        .count()
}

// A shape of one to eight features with sizes up to 8, and of one or two targets with sizes up to 4.
fn random_shape<C: Conditions>(random: &mut Random) -> Result<Shape, Refusal> {
    let spread = 1 + random.below(7);
    let features = random_sizes(random, spread);
    let wanted = &features[..1 + usize::from(random.below(8))];
    let fitting = fitting::<C>(wanted);
    let targets = random_sizes(random, 3);
    let outcomes = 1 + usize::from(random.below(2));
    Shape::new(&wanted[..fitting], &targets[..outcomes])
}

pub(crate) fn random_state(shape: &Shape, random: &mut Random) -> State {
    array::from_fn(|feature| random.below(shape.feature_size(feature)))
}

fn random_outcome(shape: &Shape, random: &mut Random) -> [u8; 4] {
    array::from_fn(|target| random.below(shape.target_size(target)))
}

// A new state, or in one of four cases that of one of the earlier observations.
fn next_state(log: &[Observation], shape: &Shape, random: &mut Random) -> State {
    let again = random.pick(log);
    let repeats = random.below(4) == 0;
    match again {
        Some(seen) if repeats => seen.state,
        _ => random_state(shape, random),
    }
}

fn random_log(
    heap: Global,
    shape: &Shape,
    random: &mut Random,
) -> Result<Vec<Observation>, AllocError> {
    let mut log = Vec::new(heap);
    for _ in 0..MOST_ROWS {
        let state = next_state(&log, shape, random);
        let outcome = random_outcome(shape, random);
        log.push(Observation { state, outcome })?;
    }
    Ok(log)
}
