// The optimal rules of a head and a sense, one after another in rising order of their codes.
ghost use Rattle.std.specs.Prelude.{◌≡◌, IfSome};
ghost use Rattle.search.specs.Walks.{Standing, Standing-prop};
ghost use Rattle.std.proofs.Props.{props};

use super::bodies::{Bodies, Codes, State};
use model::Kind;

// The next body to look at, if there is one more.
#[derive(Drop)]
pub(crate) struct Rules<'b, 'a, K: Kind> {
    bodies: &'b Bodies<'a, K>,
    opposed: &'b [State],
    next: Option<Codes>,
    ghost standing: { IfSome next (Standing K.Kind.meaning bodies.now.sizes.now) } by { Prim.hlevel (props, Standing-prop) },
}

mod filling;
mod walking;
