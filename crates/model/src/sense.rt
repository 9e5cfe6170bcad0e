// The two senses of a rule.

// *Can*: the head's value was seen in such states. *Cannot*: it was not.
#[derive(Clone, Copy, PartialEq, Eq, Debug)]
pub enum Sense {
    Can,
    Cannot,
}
