// Listings and forecasts at the edges, on a book.
use super::samples::{ONE, binary, new_book, row};
use book::Book;
use logs::PackedLog;
use model::{Exact, Head, Intake, Refusal, Sense, Stray};
use std::process::Abort;
use std::test::Fail;

// The book with the rows (0,0) with 0, (1,0) with 0 and (1,1) with 1.
fn example(rt: &(impl Abort + AllocGlobal)) -> Result<Book<Exact, PackedLog>, Fail> {
    let mut book = new_book::<Exact>(rt.alloc(), binary()?, 128)?;
    assert_eq!(rt; book.note(1, 0, &[0, 0, 0]), Ok(1));
    assert_eq!(rt; book.note(1, 0, &[1, 0, 0]), Ok(2));
    assert_eq!(rt; book.note(1, 0, &[1, 1, 1]), Ok(3));
    Ok(book)
}

#[test]
fn two_rules_in_sixteen_bytes(rt: HostRuntime) -> Result<(), Fail> {
    let mut book = example(&rt)?;
    let mut rules = [7u8; 17];
    assert_eq!(rt; book.list(ONE, Sense::Cannot, &mut rules), Ok(2));
    assert_eq!(rt;
        &rules,
        b"\x00\x01\x00\x00\x00\x00\x00\x00\x01\x00\x00\x00\x00\x00\x00\x00\x07"
    );
    let mut few = [7u8; 15];
    assert_eq!(rt;
        book.list(ONE, Sense::Cannot, &mut few),
        Err(Refusal::Rules(2))
    );
    assert_eq!(rt; &few, &[7u8; 15]);
    Ok(())
}

#[test]
fn two_rules_fill_sixteen_bytes(rt: HostRuntime) -> Result<(), Fail> {
    let mut book = example(&rt)?;
    let mut enough = [7u8; 16];
    assert_eq!(rt; book.list(ONE, Sense::Cannot, &mut enough), Ok(2));
    Ok(())
}

#[test]
fn repeated_rows_count_once(rt: HostRuntime) -> Result<(), Fail> {
    let mut book = example(&rt)?;
    assert_eq!(rt; book.forecast(ONE, &[1, 0]), Ok((0, 2, 0)));
    assert_eq!(rt; book.forecast(ONE, &[0, 1]), Ok((1, 1, 50)));
    assert_eq!(rt; book.note(1, 0, &[1, 1, 1]), Ok(4));
    assert_eq!(rt; book.forecast(ONE, &[0, 1]), Ok((1, 1, 50)));
    assert_eq!(rt; book.forecast(ONE, &[1, 1]), Ok((1, 0, 100)));
    Ok(())
}

#[test]
fn a_state_with_both_values_is_not_against(rt: HostRuntime) -> Result<(), Fail> {
    let mut book = new_book::<Exact>(rt.alloc(), binary()?, 128)?;
    book.note(1, 0, &[0, 0, 0])?;
    book.note(1, 0, &[0, 0, 1])?;
    let mut rules = [7u8; 8];
    assert_eq!(rt; book.list(ONE, Sense::Can, &mut rules), Ok(1));
    assert_eq!(rt; &rules, &[0u8; 8]);
    assert_eq!(rt; book.forecast(ONE, &[0, 0]), Ok((1, 0, 100)));
    Ok(())
}

#[test]
fn the_first_stray_cell(rt: HostRuntime) -> Result<(), Fail> {
    let mut book = example(&rt)?;
    book.log.append(row([0, 0, 9, 0, 0, 0, 0, 0, 7, 0, 0, 0]))?;
    let found = Err(Refusal::Stray(Stray { row: 3, cell: 8 }));
    let mut rules: [u8; 0] = [];
    assert_eq!(rt; book.list(ONE, Sense::Cannot, &mut rules), found);
    assert_eq!(rt; book.forecast(ONE, &[0]), Err(Refusal::State));
    assert_eq!(rt;
        book.list(
            Head {
                target: 0,
                value: 2,
            },
            Sense::Can,
            &mut rules,
        ),
        Err(Refusal::Head)
    );
    Ok(())
}

// The cell 1 of a feature, before the cell 8 of the target; and a state of three values for two features before both.
#[test]
fn a_stray_feature_cell(rt: HostRuntime) -> Result<(), Fail> {
    let mut book = new_book::<Exact>(rt.alloc(), binary()?, 128)?;
    book.log.append(row([0, 7, 0, 0, 0, 0, 0, 0, 7, 0, 0, 0]))?;
    let found = Refusal::Stray(Stray { row: 0, cell: 1 });
    let mut rules = [7u8; 8];
    assert_eq!(rt; book.list(ONE, Sense::Can, &mut rules), Err(found));
    assert_eq!(rt; &rules, &[7u8; 8]);
    assert_eq!(rt; book.forecast(ONE, &[0, 0]), Err(found));
    assert_eq!(rt; book.forecast(ONE, &[0, 0, 0]), Err(Refusal::State));
    Ok(())
}
