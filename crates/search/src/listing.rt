// Listing every optimal rule of a head and a sense.
ghost use Rattle.model.specs.Listed.{Listed};
ghost use Rattle.model.specs.Wholes.{ListedWhole, Whole};
ghost use Rattle.search.specs.Found.{found};

use super::bodies::Bodies;
use super::heads::known_head;
use super::survey::Survey;
use model::{Head, Kind, Log, Refusal, Sense, Shape};

// Fills rule memory with the optimal rules, eight bytes each, in rising order; the answer is their number. Head and sense
// stand apart, since a forecast has a head and both senses.
pub fn list<K: Kind, L: Log>(
    shape: &Shape,
    log: &L,
    survey: &mut Survey,
    head: Head,
    sense: Sense,
    rules: &mut [u8],
) -> Result<u32, Refusal>
    ensures answer { Listed K.Kind.meaning shape.now (L.Log.rows log.now) head (found K.Kind.meaning shape.now (L.Log.rows log.now) head sense) rules.old rules.new result }
    ensures listing { ListedWhole K.Kind.meaning shape.now (L.Log.rows log.now) head sense rules.old rules.new result }
    ensures whole { Whole K.Kind.meaning shape.now (L.Log.rows log.now) head sense rules.new result }
{
    known_head(shape, head)?;
    let bodies = Bodies::<K>::new(shape)?;
    survey.take(shape, log, head)?;
    survey.oppose(sense);
    let opposed = survey.opposed();
    let many = bodies.count(opposed);
    if many as usize > rules.len() / 8 {
        return Err(Refusal::Rules(many));
    }
    bodies.write(opposed, rules);
    Ok(many)
}
