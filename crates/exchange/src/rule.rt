// A rule for the exchange, by exact conditions.
ghost use Rattle.std.specs.Prelude.{◌≡◌, Some};
ghost use Rattle.exchange.specs.Rules.{asked_by, rule_of, holds_of};
ghost use Rattle.exchange.specs.Texts.{rule_text};

use super::messages::State;
use std::fmt;

// What the rule asks of each feature; none where it asks nothing.
#[derive(Clone, Copy, PartialEq, Eq, Debug, Default)]
pub struct Rule {
    pub busy: Option<bool>,
    pub wrapped: Option<bool>,
}

// What a code of the kind exact asks: code 1 is the value 0, and code 2 the value 1.
fn asked(code: u8) -> Option<bool>
    ensures { result ≡ asked_by code }
{
    match code {
        1 => Some(false),
        2 => Some(true),
        _ => None,
    }
}

// A rule as it stands in rule memory.
impl From<[u8; 8]> for Rule {
    ghost from_gives = { λ codes r. r ≡ rule_of codes };

    fn from(codes: [u8; 8]) -> Rule {
        Rule {
            busy: asked(codes[0]),
            wrapped: asked(codes[1]),
        }
    }
}

impl Rule {
    // Whether the rule matches a state.
    pub(crate) fn holds(self, state: State) -> bool
        ensures { result ≡ holds_of state self }
    {
        self.busy.is_none_or(|busy| busy == state.busy)
            && self.wrapped.is_none_or(|wrapped| wrapped == state.wrapped)
    }
}

// The conditions, each with a space before it.
impl fmt::Display for Rule {
    ghost output = { λ r. Some (rule_text r) };

    fn fmt<W: fmt::Write>(&self, f: &mut fmt::Formatter<W>) -> fmt::Result {
        let busy = match self.busy {
            Some(true) => " the supplier is busy",
            Some(false) => " the supplier is idle",
            None => "",
        };
        let wrapped = match self.wrapped {
            Some(true) => " the sequence has just wrapped to zero",
            Some(false) => " the sequence has not wrapped",
            None => "",
        };
        write!(f, "{busy}{wrapped}")
    }
}
