// The numbers of one line, read from its text.
ghost use Rattle.std.specs.Prelude.{MatchOption};
ghost use Rattle.session.specs.Lines.{Short, Lists, NoList};

use super::digits::read_number;
use super::reserved::Reserved;

// A line of at most 65,536 bytes has at most half as many numbers: each takes a space and a digit.
const ROOM: usize = 32_768;

const SPACE: u8 = b' ';

pub(crate) type Numbers = Reserved<u16, ROOM>;

// The numbers of a text, each after a space; none where it has another form.
pub(crate) fn read_list<'a>(text: &[u8], numbers: &'a mut Numbers) -> Option<&'a [u16]>
    requires { Short text.now }
    ensures { MatchOption result (NoList text.now) (λ ns. Lists text.now ns.now) }
{
    numbers.clear();
    let mut rest = text;
    'fields: while let Some((first, field)) = rest.split_first() {
        if *first != SPACE {
            return None;
        }
        let (number, digits) = read_number(field)?;
        numbers.push(number);
        rest = &field[digits..];
    }
    Some(numbers.as_slice())
}
