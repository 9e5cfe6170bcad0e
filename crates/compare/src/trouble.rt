// What can stop the comparison.
use model::Refusal;
use std::alloc::AllocError;
use std::error::Error;
use std::fmt;

// Want of memory, or a call that was refused. A type of its own, for its words.
#[derive(Debug, Drop)]
pub(crate) enum Trouble {
    Memory,
    Refused,
}

impl fmt::Display for Trouble {
    fn fmt<W: fmt::Write>(&self, f: &mut fmt::Formatter<W>) -> fmt::Result {
        match self {
            Trouble::Memory => write!(f, "no memory"),
            Trouble::Refused => write!(f, "a call was refused"),
        }
    }
}

impl Error for Trouble {}

impl From<AllocError> for Trouble {
    fn from(_e: AllocError) -> Trouble {
        Trouble::Memory
    }
}

impl From<Refusal> for Trouble {
    fn from(_e: Refusal) -> Trouble {
        Trouble::Refused
    }
}
