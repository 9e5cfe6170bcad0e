// The same messages fed in forwards and backwards: whether the two books agree.
use super::filling::fill;
use agreement::{Asked, compare};
use book::Book;
use exchange::{CLASS, DAY, DISCARDED, MESSAGES, STATES, Trouble, new_book};
use logs::PackedLog;
use model::{Head, Kind, Sense};
use std::alloc::Global;
use std::fmt;

const KEPT: Head = Head {
    target: 0,
    value: 0,
};

// On how many questions two books agree: one that was fed forwards, and one that was fed backwards and then notes a message
// more.
#[derive(Clone, Copy, PartialEq, Eq, Debug)]
pub(crate) struct Tally {
    fed_backwards: usize,
    after_one_more: usize,
}

impl fmt::Display for Tally {
    fn fmt<W: fmt::Write>(&self, f: &mut fmt::Formatter<W>) -> fmt::Result {
        let Tally {
            fed_backwards,
            after_one_more,
        } = *self;
        write!(
            f,
            "{fed_backwards} of 8 answers are the same fed backwards, and {after_one_more} after one message more."
        )
    }
}

fn listing<'a>(head: Head, sense: Sense) -> Asked<'a> {
    Asked::List {
        head,
        sense,
        alike: false,
    }
}

fn forecast(state: &[u16]) -> Asked<'_> {
    Asked::Forecast {
        head: DISCARDED,
        state,
        alike: false,
    }
}

fn is_alike(question: &Asked<'_>) -> bool {
    match question {
        Asked::List { alike, .. } | Asked::Forecast { alike, .. } => *alike,
    }
}

// Both listings of both heads, and a forecast at each state: on how many two books agree.
fn alike<K: Kind + Drop>(one: &mut Book<K, PackedLog>, other: &mut Book<K, PackedLog>) -> usize {
    let states = STATES.map(|state| state.values());
    let mut questions = [
        listing(KEPT, Sense::Can),
        listing(KEPT, Sense::Cannot),
        listing(DISCARDED, Sense::Can),
        listing(DISCARDED, Sense::Cannot),
        forecast(&states[0]),
        forecast(&states[1]),
        forecast(&states[2]),
        forecast(&states[3]),
    ];
    compare(one, other, &mut questions, &mut [0; 64], &mut [0; 64]);
    questions
        .iter()
        .filter(|question| is_alike(question))
        .count()
}

// On how many of those two books of a kind agree.
pub(crate) fn agreed<K: Kind + Drop>(heap: Global) -> Result<Tally, Trouble> {
    let mut forwards: Book<K, PackedLog> = new_book(heap)?;
    let mut backwards: Book<K, PackedLog> = new_book(heap)?;
    let mut reversed = MESSAGES;
    reversed.reverse();
    fill(&mut forwards, &MESSAGES);
    fill(&mut backwards, &reversed);
    let fed_backwards = alike(&mut forwards, &mut backwards);
    backwards.note(CLASS, DAY, &[1, 0, 1])?;
    let after_one_more = alike(&mut forwards, &mut backwards);
    Ok(Tally {
        fed_backwards,
        after_one_more,
    })
}
