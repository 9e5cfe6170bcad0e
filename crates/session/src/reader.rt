// Reading a line: which form it has, or that it has none.
ghost use Rattle.std.specs.Prelude.{◌≡◌, ◌∷◌, MatchOption, ◌≢◌};
ghost use Rattle.session.specs.Lines.{Short, Lists, NoPair, Signed, NoSign, Asks, NoAsk, Says, NoLine, sign_of};
ghost use Rattle.session.specs.Forms.{line_of};
ghost use Rattle.model.specs.declared.sense.Sense.{Sense as SenseSpec};

use super::form::Form;
use super::numbers::{Numbers, read_list};
use model::{Head, Sense};

const SPACE: u8 = b' ';

// The sense that a sign stands for. No TryFrom: the byte and the sense are both of other crates.
fn sense_of(sign: u8) -> Option<Sense>
    ensures { MatchOption result ((s : SenseSpec) → sign_of s ≢ sign) (λ s. sign_of s ≡ sign) }
{
    match sign {
        b'+' => Some(Sense::Can),
        b'-' => Some(Sense::Cannot),
        _ => None,
    }
}

// What stands before the last two bytes, which are a space and the sign of a sense.
fn split_sense(text: &[u8]) -> Option<(&[u8], Sense)>
    ensures { MatchOption result (NoSign text.now) (λ x. Signed text.now x.0.now x.1) }
{
    let [front @ .., SPACE, sign] = text else {
        return None;
    };
    let sense = sense_of(*sign)?;
    Some((front, sense))
}

// Two numbers, and the list after them.
fn read_pair<'a>(text: &[u8], numbers: &'a mut Numbers) -> Option<(u16, u16, &'a [u16])>
    requires { Short text.now }
    ensures { MatchOption result (NoPair text.now) (λ x. Lists text.now (x.0 ∷ x.1 ∷ x.2.now)) }
{
    let [first, second, rest @ ..] = read_list(text, numbers)? else {
        return None;
    };
    Some((*first, *second, rest))
}

// A target, a value and the sign of a sense.
fn read_ask(text: &[u8], numbers: &mut Numbers) -> Option<(Head, Sense)>
    requires { Short text.now }
    ensures { MatchOption result (NoAsk text.now) (λ x. Asks text.now x.0.target x.0.value x.1) }
{
    let (front, sense) = split_sense(text)?;
    let &[target, value] = read_list(front, numbers)? else {
        return None;
    };
    Some((Head { target, value }, sense))
}

// The form of a line: its first character picks one, and the rest has to be of it. A match on characters, as the format names
// them.
pub(crate) fn read<'a>(line: &[u8], numbers: &'a mut Numbers) -> Option<Form<'a>>
    requires { Short line.now }
    ensures { MatchOption result (NoLine line.now) (λ f. Says line.now (line_of f)) }
{
    let (first, rest) = line.split_first()?;
    match char::from(*first) {
        'F' => Some(Form::Features(read_list(rest, numbers)?)),
        'T' => Some(Form::Targets(read_list(rest, numbers)?)),
        'N' => {
            let (class, day, cells) = read_pair(rest, numbers)?;
            Some(Form::Note { class, day, cells })
        }
        'L' => {
            let (head, sense) = read_ask(rest, numbers)?;
            Some(Form::Listing { head, sense })
        }
        'P' => {
            let (target, value, state) = read_pair(rest, numbers)?;
            let head = Head { target, value };
            Some(Form::Forecast { head, state })
        }
        _ => None,
    }
}
