// The largest number of bodies, on books without a row.
use super::samples::{ONE, new_book};
use model::{Band, Refusal, Sense, Shape};
use std::test::Fail;

// Ten ranges for each of six features.
#[test]
fn a_million_bodies(rt: HostRuntime) -> Result<(), Fail> {
    let shape = Shape::new(&[4, 4, 4, 4, 4, 4], &[2])?;
    let mut book = new_book::<Band>(rt.alloc(), shape, 32)?;
    let mut rules = [7u8; 9];
    assert_eq!(rt; book.list(ONE, Sense::Can, &mut rules), Ok(1));
    assert_eq!(rt; &rules, b"\x00\x00\x00\x00\x00\x00\x00\x00\x07");
    assert_eq!(rt; book.forecast(ONE, &[3, 3, 3, 3, 3, 3]), Ok((0, 0, 50)));
    Ok(())
}

// Thirty-six ranges for each of four features; a state of the wrong length comes first.
#[test]
fn more_than_a_million_bodies(rt: HostRuntime) -> Result<(), Fail> {
    let shape = Shape::new(&[8, 8, 8, 8], &[2])?;
    let mut book = new_book::<Band>(rt.alloc(), shape, 32)?;
    let mut rules = [7u8; 8];
    assert_eq!(rt;
        book.list(ONE, Sense::Can, &mut rules),
        Err(Refusal::Bodies)
    );
    assert_eq!(rt; &rules, &[7u8; 8]);
    assert_eq!(rt; book.forecast(ONE, &[0, 0, 0]), Err(Refusal::State));
    assert_eq!(rt; book.forecast(ONE, &[0, 0, 0, 0]), Err(Refusal::Bodies));
    Ok(())
}
