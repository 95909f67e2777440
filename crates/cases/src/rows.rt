use crate::lengths::keeps_to_width;
use kinds::fault::ContentFault;
use kinds::kind::Kind;
use kinds::round::round_trip;
use kinds::row::{DayRow, HourMode};

// Six bytes with one hour at a code and every other hour off.
fn with_hour(hour: usize, code: u8) -> [u8; 6] {
    let mut bytes = [0u8; 6];
    if hour < 24 && code < 4 {
        bytes[hour / 4] = code << (2 * (hour % 4));
    }
    bytes
}

// Each hour at each code: the mode stands at that hour alone, and 3 is refused, at hour 23 too.
#[test]
fn hours(rt: HostRuntime) {
    for hour in 0..24 {
        for code in 0..4 {
            let row = DayRow::read(&with_hour(hour, code));
            let mut hours = [HourMode::Off; 24];
            match HourMode::try_from(code) {
                Ok(mode) => {
                    hours[hour] = mode;
                    assert_eq!(rt; row, Ok(DayRow { hours }));
                }
                Err(_) => {
                    assert_eq!(rt; code, 3);
                    assert_eq!(rt; row, Err(ContentFault::BadContent));
                }
            }
        }
    }
    let last = DayRow::read(&[0, 0, 0, 0, 0, 0xc0]);
    assert_eq!(rt; last, Err(ContentFault::BadContent));
}

fn holds_three(byte: u8) -> bool {
    byte & 3 == 3 || byte >> 2 & 3 == 3 || byte >> 4 & 3 == 3 || byte >> 6 == 3
}

// Every value of a byte at every place: both round trips, or a refusal where two of its bits are 3.
#[test]
fn round_trips(rt: HostRuntime) {
    for at in 0..6 {
        for byte in 0..=255u8 {
            let mut bytes = [0x24u8; 6];
            bytes[at] = byte;
            match DayRow::read(&bytes) {
                Ok(row) => {
                    let mut out = [0xffu8; 6];
                    assert_eq!(rt; round_trip(&row, &mut out), Ok(row));
                    assert_eq!(rt; out, bytes);
                }
                Err(fault) => {
                    assert_eq!(rt; fault, ContentFault::BadContent);
                    assert!(rt; holds_three(bytes[at]));
                }
            }
        }
    }
}

#[test]
fn lengths(rt: HostRuntime) {
    let row = DayRow {
        hours: [HourMode::Comfort; 24],
    };
    for n in 0..66 {
        assert!(rt; keeps_to_width(6, &row, 0x55, n));
    }
}
