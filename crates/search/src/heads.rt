// Whether a shape has a head.
ghost use Rattle.std.specs.Prelude.{◌≡◌, MatchResult};
ghost use Rattle.model.specs.Heads.{KnownHead};
ghost use Rattle.model.specs.declared.refusal.Refusal.TheVariants.{Head as refused_head};

use model::{Head, Refusal, Shape};

// Refused where the shape has no such head.
pub(crate) fn known_head(shape: &Shape, head: Head) -> Result<(), Refusal>
    ensures { MatchResult result (λ _. KnownHead shape.now head) (λ e. (e ≡ refused_head) × (KnownHead shape.now head → ⊥)) }
{
    let target = usize::from(head.target);
    if target >= shape.target_count() || head.value >= u16::from(shape.target_size(target)) {
        return Err(Refusal::Head);
    }
    Ok(())
}
