// A book of the exchange's messages, asked whole.
use super::{Answers, CLASS, DAY, Forecast, MESSAGES, Rule, STATES, ask, first_deciding, new_book};
use model::Exact;
use std::test::Fail;

// Either sign alone tells of a discard; where only one of them stands, as much speaks for it as against.
#[test]
fn both_signs_and_what_would_decide(rt: HostRuntime) -> Result<(), Fail> {
    let heap = rt.alloc();
    let mut book = new_book::<Exact>(heap)?;
    for message in MESSAGES.iter() {
        book.note(CLASS, DAY, message)?;
    }
    let Answers { rules, forecasts } = ask(&mut book)?;
    let busy = Rule {
        busy: Some(true),
        wrapped: None,
    };
    let wrapped = Rule {
        busy: None,
        wrapped: Some(true),
    };
    assert_eq!(rt; rules.as_slice(), [wrapped, busy].as_slice());
    let wanted = [(0, 1, 0), (1, 1, 50), (1, 1, 50), (1, 0, 100)];
    for (forecast, (state, told)) in forecasts.iter().zip(STATES.iter().zip(&wanted)) {
        let (pro, contra, percentage) = *told;
        assert_eq!(rt;
            *forecast,
            Forecast {
                state: *state,
                pro,
                contra,
                percentage,
            }
        );
    }
    assert_eq!(rt; forecasts.len(), 4);
    let answers = Answers { rules, forecasts };
    assert_eq!(rt; answers.deciding_state(), Some(STATES[1]));
    Ok(())
}

// Nine rules, more than a book lists: the first eight agree at each state that was not seen, and the ninth differs at both.
#[test]
fn nine_rules_that_the_last_tells_apart(rt: HostRuntime) -> Result<(), Fail> {
    let busy = Rule {
        busy: Some(true),
        wrapped: None,
    };
    let mut rules = [busy; 9];
    rules[8] = Rule {
        busy: None,
        wrapped: Some(true),
    };
    assert_eq!(rt; first_deciding(&rules[..8], &STATES), None);
    assert_eq!(rt; first_deciding(&rules, &STATES), Some(STATES[1]));
    assert_eq!(rt; first_deciding(&rules, &STATES[2..]), Some(STATES[2]));
    Ok(())
}
