// Whole sessions, each with an output worked out by hand.
use model::Refusal;
use session::{Done, Session};
use std::process::Abort;
use std::test::Fail;

// A session of the input, from 65,536 output bytes, prints just the expected text.
fn prints(rt: &(impl Abort + AllocGlobal), input: &[u8], expected: &[u8]) -> Result<(), Fail> {
    let heap = rt.alloc();
    let mut session = Session::new(heap)?;
    let mut output = vec![in heap; b'.'; 65536]?;
    let done = session.run(input, &mut output)?;
    assert_eq!(rt; output.get(0..done.written), Some(expected));
    Ok(())
}

// A session of the input, from so many output bytes, is refused with these numbers.
fn stops(
    rt: &(impl Abort + AllocGlobal),
    input: &[u8],
    room: usize,
    written: usize,
    lines: usize,
) -> Result<(), Fail> {
    let heap = rt.alloc();
    let mut session = Session::new(heap)?;
    let mut output = vec![in heap; b'.'; room]?;
    assert_eq!(rt;
        session.run(input, &mut output),
        Err(Refusal::Output { written, lines })
    );
    Ok(())
}

#[test]
fn lines_and_their_ends(rt: HostRuntime) -> Result<(), Fail> {
    prints(&rt, b"", b"")?;
    prints(&rt, b"\n", b"! 12\n")?;
    prints(&rt, b"Q 1", b"! 12\n")?;
    prints(&rt, b"Q 1\n\nF 2\n", b"! 12\n! 12\n")?;
    prints(&rt, b"F 2\nT 2\nL 0 0 +", b"0=0\n1 rules\n")
}

#[test]
fn lines_of_no_form(rt: HostRuntime) -> Result<(), Fail> {
    prints(
        &rt,
        b"F  2\nF 02\nF 65536\nF 2 \n F 2\n",
        b"! 12\n! 12\n! 12\n! 12\n! 12\n",
    )?;
    prints(
        &rt,
        b"T 2\nN 1 1 0 0\nL 0 0 +\nP 0 0 0\n",
        b"! 12\n! 12\n! 12\n! 12\n",
    )?;
    prints(
        &rt,
        b"F 2\nT 2\nN 1\nL 0 0\nL 0 0 *\nP 0\nf 2\n",
        b"! 12\n! 12\n! 12\n! 12\n! 12\n",
    )
}

#[test]
fn shapes_refused_and_kept(rt: HostRuntime) -> Result<(), Fail> {
    prints(&rt, b"F 2 9\nT 2\nT 2\n", b"! 1\n! 12\n")?;
    prints(
        &rt,
        b"F\nT 2\nF 2\nT\nF 1\nT 2\nF 2\nT 2 2 2 2 2\n",
        b"! 1\n! 1\n! 1\n! 1\n",
    )?;
    prints(
        &rt,
        b"F 2\nT 2\nN 1 0 1 1\nF 2 9\nT 2\nL 0 1 -\n",
        b"! 1\n0!1 0=0\n1 rules\n",
    )?;
    prints(
        &rt,
        b"F 2\nT 2\nN 1 0 1 1\nF 2\nT 2\nL 0 1 -\n",
        b"0!1\n1 rules\n",
    )
}

#[test]
fn large_numbers_are_numbers(rt: HostRuntime) -> Result<(), Fail> {
    prints(
        &rt,
        b"F 258\nT 2\nF 2\nT 2\nN 257 0 0 0\nN 1 0 256 0\n",
        b"! 1\n! 4\n! 4\n",
    )?;
    prints(
        &rt,
        b"F 2\nT 2\nL 256 0 +\nL 0 257 -\nP 256 0 0\nP 0 0 256\n",
        b"! 7\n! 7\n! 7\n! 11\n",
    )?;
    prints(&rt, b"F 2\nT 2\nN 1 65535 0 0\nP 0 0 0\n", b"1 0 100\n")
}

#[test]
fn refusals_of_a_book(rt: HostRuntime) -> Result<(), Fail> {
    prints(
        &rt,
        b"F 2 2\nT 2\nN 4 0 0 0 0\nN 0 0 0 0 0\nN 1 0 0 0\nN 1 0 0 2 0\nN 1 0\n",
        b"! 4\n! 4\n! 4\n! 4\n! 4\n",
    )?;
    prints(
        &rt,
        b"F 2 2\nT 2\nL 0 2 +\nL 1 0 +\nP 0 2 0 0\nP 0 1 0 0 0\nP 0 1\n",
        b"! 7\n! 7\n! 7\n! 11\n! 11\n",
    )?;
    prints(
        &rt,
        b"F 8 8 8 8 8 8 8 8\nT 2\nL 0 0 +\nP 0 0 0\n",
        b"! 8\n! 11\n",
    )
}

#[test]
fn both_signs_of_a_discard(rt: HostRuntime) -> Result<(), Fail> {
    let forwards =
        b"F 2 2\nT 2\nN 2 7 0 0 0\nN 2 8 0 0 0\nN 2 8 1 1 1\nN 2 9 1 1 1\nL 0 1 +\nP 0 1 1 0\nP 0 1 0 1\n";
    let backwards =
        b"F 2 2\nT 2\nN 2 9 1 1 1\nN 2 8 1 1 1\nN 2 8 0 0 0\nN 2 7 0 0 0\nL 0 1 +\nP 0 1 1 0\nP 0 1 0 1\n";
    prints(
        &rt,
        forwards,
        b"0=1 1=1\n0=1 0=1\n2 rules\n1 1 50\n1 1 50\n",
    )?;
    prints(
        &rt,
        backwards,
        b"0=1 1=1\n0=1 0=1\n2 rules\n1 1 50\n1 1 50\n",
    )
}

#[test]
fn output_that_does_not_fit(rt: HostRuntime) -> Result<(), Fail> {
    let heap = rt.alloc();
    let none = b"F 2\nT 2\nN 1 0 0 0\nN 1 0 1 0\nL 0 1 +\n";
    stops(&rt, none, 3, 0, 4)?;
    stops(&rt, none, 7, 0, 4)?;
    prints(&rt, none, b"0 rules\n")?;
    stops(&rt, b"Q\nQ\nQ\n", 12, 10, 2)?;
    let mut session = Session::new(heap)?;
    let mut output = [b'.'; 11];
    assert_eq!(rt;
        session.run(b"Q\nQ\n", &mut output),
        Ok(Done {
            written: 10,
            lines: 2,
        })
    );
    assert_eq!(rt; &output, b"! 12\n! 12\n.");
    Ok(())
}

#[test]
fn input_of_the_longest_length(rt: HostRuntime) -> Result<(), Fail> {
    let heap = rt.alloc();
    let mut input = vec![in heap; b' '; 65536]?;
    prints(&rt, &input, b"! 12\n")?;
    input.push(b' ')?;
    stops(&rt, &input, 65536, 0, 0)
}

#[test]
fn a_full_log(rt: HostRuntime) -> Result<(), Fail> {
    let heap = rt.alloc();
    let mut input = Vec::new(heap);
    input.extend_from_slice(b"F 2\nT 2\n")?;
    for _ in 0..4094 {
        input.extend_from_slice(b"N 1 1 0 0\n")?;
    }
    input.extend_from_slice(b"L 0 1 +\nN 1 1 0 0\nN 1 1 1 1\nL 0 1 -\n")?;
    prints(&rt, &input, b"0=1 0=1\n1 rules\n! 6\n! 6\n0!1\n1 rules\n")
}

// The states of eight features of size 4 that a fixed sequence picks, none with the outcome 1: more than 8,192 optimal
// rules.
#[test]
fn more_rules_than_memory(rt: HostRuntime) -> Result<(), Fail> {
    let heap = rt.alloc();
    let mut input = Vec::new(heap);
    input.extend_from_slice(b"F 4 4 4 4 4 4 4 4\nT 2\n")?;
    let mut x = 1u32;
    for _ in 0..700 {
        input.extend_from_slice(b"N 1 1")?;
        for _ in 0..8 {
            x = x.wrapping_mul(1_103_515_245).wrapping_add(12_345);
            input.push(b' ')?;
            input.push(b'0' + ((x >> 16) & 3) as u8)?;
        }
        input.extend_from_slice(b" 0\n")?;
    }
    input.extend_from_slice(b"L 0 1 +\nP 0 0 9\n")?;
    prints(&rt, &input, b"! 10\n! 11\n")
}
