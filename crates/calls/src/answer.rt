// What a call answers in numbers.
ghost use Rattle.std.specs.Prelude.{◌≡◌};
ghost use Rattle.calls.specs.Answers.{answer_of, refused as refused_answer};

use super::trouble::Trouble;
use model::Refusal;

// The number of rules, and the number of the refusal: 0 where there is none, 255 for want of memory. Where rule memory is
// too small (10), the number of rules is what it should hold; with any other refusal it is 0.
// Two numbers side by side, and no `Result`, since a C program reads them.
#[derive(Clone, Copy)]
#[repr(C)]
pub struct Answer {
    pub rules: u32,
    pub refusal: u32,
}

const WANT_OF_MEMORY: u32 = 255;

impl From<Refusal> for Answer {
    ghost from_gives = { λ e a. a ≡ refused_answer e };

    fn from(refusal: Refusal) -> Answer {
        let rules = match refusal {
            Refusal::Rules(many) => many,
            _ => 0,
        };
        Answer {
            rules,
            refusal: u32::from(refusal.number()),
        }
    }
}

impl From<Result<u32, Trouble>> for Answer {
    ghost from_gives = { λ r a. a ≡ answer_of r };

    fn from(listed: Result<u32, Trouble>) -> Answer {
        match listed {
            Ok(rules) => Answer { rules, refusal: 0 },
            Err(Trouble::Refused(refusal)) => refusal.into(),
            Err(Trouble::Memory) => Answer {
                rules: 0,
                refusal: WANT_OF_MEMORY,
            },
        }
    }
}
