// Images, and the packed log over bytes of every kind.
use super::samples::{image, uneven};
use logs::{PackedLog, check, format};
use model::{Intake, Log, Refusal, Row};
use std::test::Fail;

const ROW: Row = Row {
    class: 3,
    day: 258,
    cells: [1, 0, 0, 0, 0, 0, 0, 0, 1, 0, 0, 9],
};

#[test]
fn an_image_byte_for_byte(rt: HostRuntime) -> Result<(), Fail> {
    let mut bytes = vec![in rt.alloc(); 7; 50]?;
    format(&mut bytes, &uneven()?)?;
    let mut log = PackedLog::new(bytes);
    assert_eq!(rt; log.append(ROW), Ok(()));
    assert_eq!(rt; log.append(ROW), Err(Refusal::Full));
    let header =
        b"OBS\x00\x01\x02\x01\x00\x00\x01\x00\x00\x00\x00\x00\x00\x02\x03\x00\x00\x00\x00\x00\x00\x02\x00\x00\x00\x00\x00\x00\x00";
    assert_eq!(rt; log.bytes().get(0..32), Some(header.as_slice()));
    assert_eq!(rt;
        log.bytes().get(32..50),
        Some(b"\x03\x00\x01\x02\x01\x00\x00\x00\x00\x00\x00\x00\x01\x00\x00\x09\x00\x00".as_slice())
    );
    Ok(())
}

#[test]
fn questions_inside_and_outside(rt: HostRuntime) -> Result<(), Fail> {
    let mut log = PackedLog::new(vec![in rt.alloc(); 0; 48]?);
    log.format(&uneven()?)?;
    log.append(ROW)?;
    assert_eq!(rt; log.count(), 1);
    assert_eq!(rt; (log.class(0), log.day(0), log.cell(0, 11)), (3, 258, 9));
    assert_eq!(rt; (log.class(1), log.day(1), log.cell(1, 0)), (255, 0, 255));
    assert_eq!(rt; (log.cell(0, 12), log.class(65536)), (255, 255));
    Ok(())
}

#[test]
fn lengths_of_an_image(rt: HostRuntime) -> Result<(), Fail> {
    let heap = rt.alloc();
    let s = uneven()?;
    assert_eq!(rt; format(&mut vec![in heap; 0; 31]?, &s), Err(Refusal::Image));
    assert_eq!(rt;
        format(&mut vec![in heap; 0; 65537]?, &s),
        Err(Refusal::Image)
    );
    let mut log = PackedLog::new(vec![in heap; 0; 32]?);
    log.format(&s)?;
    assert_eq!(rt; log.append(ROW), Err(Refusal::Full));
    let mut short = PackedLog::new(vec![in heap; 255; 31]?);
    assert_eq!(rt; (short.count(), short.append(ROW)), (0, Err(Refusal::Full)));
    let long = PackedLog::new(vec![in heap; 255; 70000]?);
    assert_eq!(rt; long.count(), 4094);
    Ok(())
}

// A place in the header, and a value that breaks it.
const BROKEN: [(usize, u8); 9] = [
    (2, b'X'),
    (4, 2),
    (5, 9),
    (6, 0),
    (7, 1),
    (9, 2),
    (16, 9),
    (18, 2),
    (31, 1),
];

#[test]
fn broken_headers(rt: HostRuntime) -> Result<(), Fail> {
    for (at, value) in BROKEN {
        let mut bytes = image(rt.alloc(), &uneven()?, 48)?;
        if let Some(byte) = bytes.get_mut(at) {
            *byte = value;
        }
        assert!(rt;
            matches!(check(&bytes), Err(Refusal::Image)),
            "{value} at {at}"
        );
    }
    Ok(())
}

#[test]
fn a_checked_image_has_its_shape(rt: HostRuntime) -> Result<(), Fail> {
    let bytes = image(rt.alloc(), &uneven()?, 48)?;
    let s = check(&bytes)?;
    assert_eq!(rt;
        (s.feature_count(), s.feature_size(0), s.feature_size(1)),
        (2, 2, 3)
    );
    assert_eq!(rt;
        (s.target_count(), s.target_size(0), s.target_size(1)),
        (1, 2, 0)
    );
    Ok(())
}
