// What can be listed: sizes that the kind takes, and not too many bodies.
ghost use Rattle.std.specs.Prelude.{◌≡◌, MatchResult};
ghost use Rattle.model.specs.Limits.{Listable};
ghost use Rattle.model.specs.Shapes.{features};
ghost use Rattle.model.specs.declared.refusal.Refusal.TheVariants.{Bodies as refused_bodies};

use super::Bodies;
use model::{Kind, Refusal, Shape};
use std::marker::PhantomData;

const MOST_BODIES: u32 = 1_000_000;

impl<'a, K: Kind> Bodies<'a, K> {
    // The bodies of a shape; refused where a size is above the kind's largest, or where there are too many.
    pub(crate) fn new(shape: &'a Shape) -> Result<Bodies<'a, K>, Refusal>
        ensures { MatchResult result (λ b. b.sizes.now ≡ features shape.now) (λ e. (e ≡ refused_bodies) × (Listable K.Kind.meaning (features shape.now) → ⊥)) }
    {
        let sizes = shape.feature_sizes();
        let mut bodies: u32 = 1;
        'sizes: for size in sizes {
            if *size > K::widest() {
                return Err(Refusal::Bodies);
            }
            bodies *= u32::from(K::conditions(*size));
            if bodies > MOST_BODIES {
                return Err(Refusal::Bodies);
            }
        }
        Ok(Bodies {
            sizes,
            kind: PhantomData,
        })
    }
}
