// Comparing the listings of two books.
ghost use Rattle.std.specs.Prelude.{◌≡◌, ◌*◌, ◌≤◌, length, IfOk, Decides};
ghost use Rattle.agreement.specs.Alike.{SameListing};

use model::Refusal;

// Whether two listings answered the same, with the same rules at the front of rule memory: what stands beyond them does not
// count, so the memories are not compared whole.
pub(crate) fn same_listing(
    one: Result<u32, Refusal>,
    other: Result<u32, Refusal>,
    left: &[u8],
    right: &[u8],
) -> bool
    requires left { IfOk one (λ n. 8 * n ≤ length left.now) }
    requires right { IfOk other (λ n. 8 * n ≤ length right.now) }
    ensures { Decides result (SameListing one other left.now right.now) }
{
    if one != other {
        return false;
    }
    match one {
        Ok(rules) => {
            let front = 8 * rules as usize;
            left[..front] == right[..front]
        }
        Err(_) => true,
    }
}
