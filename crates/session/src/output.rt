// The output that a session is lent: how far it is written, and one more page in it.
ghost use Rattle.std.specs.Prelude.{◌≡◌, ◌+◌, ◌<◌, length, if◌then◌else◌, Ok, Err};
ghost use Rattle.model.specs.declared.refusal.Refusal.TheVariants.{Output};
ghost use Rattle.session.specs.Pages.{text_of};
ghost use Rattle.session.specs.Outputs.{fits, placed};

use super::page::Page;
use model::Refusal;

// How many output bytes were written, and how many lines were done.
#[derive(Clone, Copy, PartialEq, Eq, Debug)]
pub struct Done {
    pub written: usize,
    pub lines: usize,
}

// A line's page after the bytes written before, and how much is done then; or none of it, and the refusal.
pub(crate) fn emit(page: &Page, output: &mut [u8], done: Done) -> Result<Done, Refusal>
    requires { done.lines < 65536 }
    ensures value { result ≡ (if fits output.old done.written (text_of page.now) then Ok (record { written = done.written + length (text_of page.now); lines = done.lines + 1 }) else Err (Output done.written done.lines)) }
    ensures after { output.new ≡ (if fits output.old done.written (text_of page.now) then placed output.old done.written (text_of page.now) else output.old) }
{
    let text = page.as_slice();
    let Done { written, lines } = done;
    if written > output.len() || text.len() > output.len() - written {
        return Err(Refusal::Output { written, lines });
    }
    let end = written + text.len();
    output[written..end].copy_from_slice(text);
    Ok(Done {
        written: end,
        lines: lines + 1,
    })
}
