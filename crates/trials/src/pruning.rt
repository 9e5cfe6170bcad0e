// The search asked without a book, over the same rows as the listings at the edges.
use super::samples::{ONE, binary, image, row};
use logs::PackedLog;
use model::{Exact, Intake, Refusal, Row, Sense};
use search::{Survey, forecast, list};
use std::test::Fail;

// The row of a state of two values and an outcome of one.
fn seen(first: u8, second: u8, outcome: u8) -> Row {
    row([first, second, 0, 0, 0, 0, 0, 0, outcome, 0, 0, 0])
}

// The rows (0,0) with 0, (1,0) with 0 and (1,1) with 1: the outcome is 1 where the second value is, and cannot be where
// either value is 0.
#[test]
fn lists_what_the_rows_leave_open(rt: HostRuntime) -> Result<(), Fail> {
    let shape = binary()?;
    let mut log = PackedLog::new(image(rt.alloc(), &shape, 128)?);
    log.append(seen(0, 0, 0))?;
    log.append(seen(1, 0, 0))?;
    log.append(seen(1, 1, 1))?;
    let mut survey = Survey::new(rt.alloc())?;
    let mut can = [7u8; 9];
    assert_eq!(rt;
        list::<Exact, PackedLog>(&shape, &log, &mut survey, ONE, Sense::Can, &mut can),
        Ok(1)
    );
    assert_eq!(rt; &can, b"\x00\x02\x00\x00\x00\x00\x00\x00\x07");
    let mut few = [7u8; 15];
    assert_eq!(rt;
        list::<Exact, PackedLog>(&shape, &log, &mut survey, ONE, Sense::Cannot, &mut few),
        Err(Refusal::Rules(2))
    );
    assert_eq!(rt; &few, &[7u8; 15]);
    assert_eq!(rt;
        forecast::<Exact, PackedLog>(&shape, &log, &mut survey, ONE, &[0, 1]),
        Ok((1, 1, 50))
    );
    Ok(())
}
