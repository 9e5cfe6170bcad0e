// The bodies of rules over features of some sizes, where they are few enough to be looked at one after another.
ghost use Rattle.std.proofs.Props.{props};
ghost use Rattle.model.specs.Limits.{Listable};
ghost use Rattle.model.specs.Sizes.{Lawful};

use model::Kind;
use std::marker::PhantomData;

// A code for each feature, 0 beyond the last.
pub(crate) type Codes = [u8; 8];

// A value for each feature, 0 beyond the last.
pub(crate) type State = [u8; 8];

// The sizes of the features, known to be sizes that can be listed.
#[derive(Drop)]
pub(crate) struct Bodies<'a, K: Kind> {
    sizes: &'a [u8],
    kind: PhantomData<&'a K>,
    ghost lawful: { Lawful 8 sizes.now } by { Prim.hlevel props },
    ghost listable: { Listable K.Kind.meaning sizes.now } by { Prim.hlevel props },
}

mod limits;
mod matching;
mod near;
mod optimal;
mod order;
