// Why a call lists nothing.
ghost use Rattle.std.specs.Prelude.{◌≡◌};
ghost use Rattle.calls.specs.declared.trouble.Trouble.TheVariants.{Memory as no_memory, Refused as refused_by};

use model::Refusal;
use std::alloc::AllocError;

// Want of memory, or a refusal. It has no words of its own, since a C program is told of it in numbers.
#[derive(Clone, Copy)]
pub(crate) enum Trouble {
    Memory,
    Refused(Refusal),
}

impl From<AllocError> for Trouble {
    ghost from_gives = { λ e r. r ≡ no_memory };

    fn from(_e: AllocError) -> Trouble {
        Trouble::Memory
    }
}

impl From<Refusal> for Trouble {
    ghost from_gives = { λ e r. r ≡ refused_by e };

    fn from(e: Refusal) -> Trouble {
        Trouble::Refused(e)
    }
}
