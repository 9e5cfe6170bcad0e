// Observations.
use super::bodies::State;
use model::{Head, Row};

#[derive(Clone, Copy)]
pub(crate) struct Observation {
    pub(crate) state: State,
    pub(crate) outcome: [u8; 4],
}

impl Observation {
    pub(crate) fn has(&self, head: Head) -> bool {
        self.outcome
            .get(usize::from(head.target))
            .is_some_and(|value| u16::from(*value) == head.value)
    }
}

// The cells of a row: the state in 0 to 7, the outcome in 8 to 11.
impl From<&Observation> for Row {
    fn from(seen: &Observation) -> Row {
        let mut cells = [0u8; 12];
        cells[..8].copy_from_slice(&seen.state);
        cells[8..].copy_from_slice(&seen.outcome);
        Row {
            class: 1,
            day: 0,
            cells,
        }
    }
}
