// The program: a session of standard input, printed to standard output.
#![tactic(auto)]

use model::Refusal;
use session::Session;
use std::io::{Read, Write};

const OUTPUT: usize = 65_536;

// One byte more than a session reads, so that an input that is too long is seen to be so.
const INPUT: u64 = 65_537;

fn main(rt: HostRuntime) -> anyhow::Result<()> {
    let heap = rt.alloc();
    let mut input = Vec::new(heap);
    rt.stdin().take(INPUT).read_to_end(&mut input)?;
    let mut output = vec![in heap; 0u8; OUTPUT]?;
    let mut session = Session::new(heap)?;
    let answer = session.run(&input, &mut output);
    let written = match answer {
        Ok(done) => done.written,
        Err(Refusal::Output { written, .. }) => written,
        // a session refuses nothing else, and 0 needs no proof of that, as `unreachable!` would
        Err(_) => 0,
    };
    rt.stdout().write_all(&output[..written])?;
    if let Err(refusal) = answer {
        println!(rt; "! {}", refusal.number())?;
    }
    Ok(())
}
