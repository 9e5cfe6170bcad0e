// The survey of a log: the different states that it shows, each with whether it was shown with the head.
ghost use Rattle.std.specs.Prelude.{◌≤◌, vec_len, vec_capacity};

use super::bodies::State;

// A state that was shown, and whether it was shown with the head's value: two facts of it, and no Option.
#[derive(Clone, Copy)]
pub(crate) struct Seen {
    pub(crate) state: State,
    pub(crate) with_head: bool,
}

// Room for the survey of any log and for the states of it that are against a head, got once, so that no listing or
// forecast allocates.
#[derive(Drop)]
pub struct Survey {
    seen: Vec<Seen>,
    opposed: Vec<State>,
    ghost room: { 65535 ≤ vec_capacity seen },
    ghost few: { vec_len seen ≤ 65535 },
    ghost aside: { 65535 ≤ vec_capacity opposed },
}

mod against;
mod rows;
mod take;
