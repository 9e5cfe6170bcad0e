// What near misses tell of a rule: whether each weaker condition lets one of them in.
ghost use Rattle.std.specs.Prelude.{◌≡◌, not};
ghost use Rattle.search.specs.Misses.{spares, firm, firm_all};

use super::near::Near;
use super::{Bodies, Codes};
use model::Kind;

// Whether a condition holds of none of the near misses of its feature.
fn lets_none_in<K: Kind>(size: u8, near: &[bool; 8], code: u8) -> bool
    ensures { result ≡ spares K.Kind.meaning size near.now code }
{
    'values: for value in 0..8u8 {
        if near[usize::from(value)] && K::holds(size, code, value) {
            return false;
        }
    }
    true
}

// Whether some weaker condition than that of a rule leaves it consistent: one that lets no near miss in.
fn loosens<K: Kind>(size: u8, near: &[bool; 8], code: u8) -> bool
    ensures { not result ≡ firm K.Kind.meaning size near.now code }
{
    'codes: for other in 0..K::conditions(size) {
        if other == code || !K::weaker(size, other, code) {
            continue 'codes;
        }
        if lets_none_in::<K>(size, near, other) {
            return true;
        }
    }
    false
}

impl<'a, K: Kind> Bodies<'a, K> {
    // Whether each weaker condition than those of a rule lets a near miss in.
    pub(super) fn is_firm(&self, near: &Near, body: &Codes) -> bool
        ensures { result ≡ firm_all K.Kind.meaning self.now.sizes.now near.now body.now }
    {
        'features: for ((size, code), near) in self.sizes.iter().zip(body).zip(near) {
            if loosens::<K>(*size, near, *code) {
                return false;
            }
        }
        true
    }
}
