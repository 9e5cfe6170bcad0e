// What the exchange logged, and the states that a message may have.
ghost use Rattle.std.specs.Prelude.{◌≡◌, Some};
ghost use Rattle.exchange.specs.Messages.{values_of, is_seen};
ghost use Rattle.exchange.specs.Texts.{state_text};

use model::Head;
use std::fmt;

// What the exchange logged: supplier busy, sequence just wrapped to zero, invoice discarded. They are numbers, since a book
// notes numbers.
pub const MESSAGES: [[u16; 3]; 6] = [
    [0, 0, 0],
    [0, 0, 0],
    [1, 1, 1],
    [0, 0, 0],
    [1, 1, 1],
    [1, 1, 1],
];

// What each message is noted with.
pub const CLASS: u16 = 1;

pub const DAY: u16 = 100;

// The head of the question: an invoice is discarded.
pub const DISCARDED: Head = Head {
    target: 0,
    value: 1,
};

// Whether the supplier was busy, and whether its sequence had just wrapped to zero.
#[derive(Clone, Copy, PartialEq, Eq, Debug, Default)]
pub struct State {
    pub busy: bool,
    pub wrapped: bool,
}

// All states that a message may have.
pub const STATES: [State; 4] = [
    State {
        busy: false,
        wrapped: false,
    },
    State {
        busy: true,
        wrapped: false,
    },
    State {
        busy: false,
        wrapped: true,
    },
    State {
        busy: true,
        wrapped: true,
    },
];

impl State {
    // The state in a book's numbers.
    pub fn values(self) -> [u16; 2]
        ensures { result ≡ values_of self }
    {
        [u16::from(self.busy), u16::from(self.wrapped)]
    }

    // Whether some message had this state.
    pub fn was_seen(self) -> bool
        ensures { result ≡ is_seen MESSAGES self }
    {
        MESSAGES
            .iter()
            .any(|message| message.starts_with(&self.values()))
    }
}

impl fmt::Display for State {
    ghost output = { λ s. Some (state_text s) };

    fn fmt<W: fmt::Write>(&self, f: &mut fmt::Formatter<W>) -> fmt::Result {
        let supplier = if self.busy { "a busy" } else { "an idle" };
        let wrapped = if self.wrapped { "just" } else { "not" };
        write!(
            f,
            "{supplier} supplier, a sequence that has {wrapped} wrapped"
        )
    }
}
