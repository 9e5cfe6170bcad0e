// Running the lines of an input.
ghost use Rattle.std.specs.Prelude.{◌≡◌, ◌<◌, ◌≤◌, length, IfOk, Err};
ghost use Rattle.model.specs.declared.refusal.Refusal.TheVariants.{Output};
ghost use Rattle.session.specs.Desks.{Unbegun};
ghost use Rattle.session.specs.Outputs.{Answered};

use super::desk::Desk;
use super::numbers::Numbers;
use super::output::{Done, emit};
use super::reader::read;
use model::Refusal;
use std::alloc::{AllocError, Global};

// The most bytes of lines that a session reads.
const LONGEST: usize = 65_536;

// A session: its book and its working memory, all got at the start.
#[derive(Drop)]
pub struct Session {
    numbers: Numbers,
    desk: Desk,
}

// A line without the line feed that ends it.
fn without_line_feed(line: &[u8]) -> &[u8]
    ensures { length result.now ≤ length line.now }
{
    line.strip_suffix(b"\n").unwrap_or(line)
}

impl Session {
    // A session that has done no line.
    pub fn new(heap: Global) -> Result<Session, AllocError>
        ensures { IfOk result (λ s. Unbegun s.desk) }
    {
        let numbers = Numbers::new(heap)?;
        let desk = Desk::new(heap)?;
        Ok(Session { numbers, desk })
    }

    // Does the lines of an input one after another, and writes what they print to the front of the output.
    pub fn run(&mut self, input: &[u8], output: &mut [u8]) -> Result<Done, Refusal>
        ensures written { Answered output.old output.new result }
        ensures too_long { 65536 < length input.now → result ≡ Err (Output 0 0) }
    {
        if input.len() > LONGEST {
            return Err(Refusal::Output {
                written: 0,
                lines: 0,
            });
        }
        let mut done = Done {
            written: 0,
            lines: 0,
        };
        'lines: for line in input.split_inclusive(|byte| *byte == b'\n') {
            let form = read(without_line_feed(line), &mut self.numbers);
            self.desk.answer(form);
            done = emit(&self.desk.page, output, done)?;
        }
        Ok(done)
    }
}
