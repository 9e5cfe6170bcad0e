// Listing over the bytes of an image.
ghost use Rattle.calls.specs.Called.{Called};

use super::trouble::Trouble;
use logs::{PackedLog, check};
use model::{Head, Kind, Sense};
use search::{Survey, list};
use std::alloc::Global;

// Checks the image, copies it into a log, and fills rule memory with the optimal rules of a head and a sense.
pub(crate) fn list_image<K: Kind + Drop>(
    heap: Global,
    image: &[u8],
    head: Head,
    sense: Sense,
    rules: &mut [u8],
) -> Result<u32, Trouble>
    ensures { Called K.Kind.meaning image.now head sense rules.old rules.new result }
{
    let shape = check(image)?;
    let log = PackedLog::new(Vec::from_slice(heap, image)?);
    let mut survey = Survey::new(heap)?;
    Ok(list::<K, PackedLog>(&shape, &log, &mut survey, head, sense, rules)?)
}
