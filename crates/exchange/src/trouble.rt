// Why a book of the exchange's messages answers nothing.
ghost use Rattle.std.specs.Prelude.{◌≡◌, Some};
ghost use Rattle.exchange.specs.Texts.{trouble_text};
ghost use Rattle.exchange.specs.declared.trouble.Trouble.TheVariants.{Memory as no_memory, Refused as refused_by};

use model::Refusal;
use std::alloc::AllocError;
use std::error::Error;
use std::fmt;

// Want of memory, or a call that the book refused. A type of its own, for its words.
#[derive(Clone, Copy, PartialEq, Eq, Debug)]
pub enum Trouble {
    Memory,
    Refused(Refusal),
}

impl fmt::Display for Trouble {
    ghost output = { λ t. Some (trouble_text t) };

    fn fmt<W: fmt::Write>(&self, f: &mut fmt::Formatter<W>) -> fmt::Result {
        f.write_str(match self {
            Self::Memory => "no memory for the book",
            Self::Refused(_) => "the book refused a call",
        })
    }
}

impl Error for Trouble {}

impl From<AllocError> for Trouble {
    ghost from_gives = { λ e t. t ≡ no_memory };

    fn from(_e: AllocError) -> Trouble {
        Trouble::Memory
    }
}

impl From<Refusal> for Trouble {
    ghost from_gives = { λ e t. t ≡ refused_by e };

    fn from(e: Refusal) -> Trouble {
        Trouble::Refused(e)
    }
}
