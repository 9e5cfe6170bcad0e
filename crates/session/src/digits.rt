// Reading one number: decimal, without leading zero, at most 65,535.
ghost use Rattle.std.specs.Option.{MatchOption};
ghost use Rattle.session.specs.Lines.{Runs, Begins, NoNumber};

// The digits that a text begins with: the number that they write, if it is not too large, and how many there are. By hand,
// since `parse` takes a sign, and does not tell where the digits end.
fn read_digits(text: &[u8]) -> Option<(u16, usize)>
    ensures { MatchOption result (NoNumber text.now) (λ x. Runs text.now x.0 x.1) }
{
    let mut number: u16 = 0;
    'figures: for (digits, byte) in text.iter().enumerate() {
        if !byte.is_ascii_digit() {
            return Some((number, digits));
        }
        let digit = u16::from(*byte - b'0');
        number = number.checked_mul(10)?.checked_add(digit)?;
    }
    Some((number, text.len()))
}

// The number that a text begins with, and how many digits it has.
pub(crate) fn read_number(text: &[u8]) -> Option<(u16, usize)>
    ensures { MatchOption result (NoNumber text.now) (λ x. Begins text.now x.0 x.1) }
{
    let (number, digits) = read_digits(text)?;
    if digits == 0 {
        return None;
    }
    if digits > 1 && text[0] == b'0' {
        return None;
    }
    Some((number, digits))
}
