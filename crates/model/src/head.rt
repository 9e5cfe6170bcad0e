// Heads of rules.

// A target and one of its values, as a caller names them: whether a shape has it is checked by each call.
#[derive(Clone, Copy, PartialEq, Eq, Debug)]
pub struct Head {
    pub target: u16,
    pub value: u16,
}
