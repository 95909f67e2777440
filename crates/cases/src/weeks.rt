use kinds::fault::ContentFault;
use kinds::row::DayRow;
use kinds::valve::Valve;
use std::process::Abort;
use std::test::Fail;
use week::check::check_week;
use week::compare::{alike, judge};
use week::day::{Day, RefusedDay};
use week::fault::CheckFault;
use week::report::Refused;
use week::verdict::Verdict;

// The tests' own table, and not `Day::ALL`, by which loading names its days.
static DAYS: [Day; 7] = [
    Day::Monday,
    Day::Tuesday,
    Day::Wednesday,
    Day::Thursday,
    Day::Friday,
    Day::Saturday,
    Day::Sunday,
];

// What a refused week names; None for an accepted one. A refused one leaves both saves as they were.
fn refused(rt: &impl Abort, bytes: &[u8]) -> Result<Option<RefusedDay>, Fail> {
    let mut first = [0xaau8; 42];
    let mut second = [0xbbu8; 42];
    match check_week::<DayRow>(bytes, &mut first, &mut second) {
        Ok(checked) => {
            assert_eq!(rt; checked.verdict, Verdict::MayLeave);
            assert!(rt; alike(&first, bytes) && alike(&second, bytes));
            Ok(None)
        }
        Err(fault) => {
            assert!(rt; alike(&first, &[0xaau8; 42]) && alike(&second, &[0xbbu8; 42]));
            match fault {
                CheckFault::Day(day) => Ok(Some(day)),
                CheckFault::Save(_) => Err(Fail::new("no save is refused")),
            }
        }
    }
}

// A week of each length: a short one names the day that is cut, a long one Sunday.
#[test]
fn lengths(rt: HostRuntime) -> Result<(), Fail> {
    let bytes = [0x19u8; 64];
    let fault = ContentFault::WrongLength;
    for n in 0..65 {
        let expected = if n == 42 {
            None
        } else if n < 42 {
            Some(RefusedDay {
                day: DAYS[n / 6],
                fault,
            })
        } else {
            Some(RefusedDay {
                day: Day::Sunday,
                fault,
            })
        };
        assert_eq!(rt; refused(&rt, &bytes[..n])?, expected);
    }
    Ok(())
}

// A bad hour in each byte names its day, before a later fault of any sort.
#[test]
fn bad_hours(rt: HostRuntime) -> Result<(), Fail> {
    let fault = ContentFault::BadContent;
    for at in 0..42 {
        let mut bytes = [0x19u8; 48];
        bytes[at] = 0xc0;
        bytes[41] = 0xff;
        let expected = Some(RefusedDay {
            day: DAYS[at / 6],
            fault,
        });
        assert_eq!(rt; refused(&rt, &bytes[..42])?, expected);
        if at < 36 {
            assert_eq!(rt; refused(&rt, &bytes)?, expected);
        }
    }
    Ok(())
}

static VALVES: [u8; 28] = [
    100, 0, 50, 1, 100, 0, 50, 1, 100, 0, 50, 1, 100, 0, 50, 1, 100, 0, 50, 1, 100, 0, 50, 1, 100,
    0, 50, 1,
];

// Whether seven valve records are saved into slices of these lengths; both slices stay as they were if not.
fn saved(rt: &impl Abort, first: &mut [u8], second: &mut [u8]) -> bool {
    match check_week::<Valve>(&VALVES, first, second) {
        Ok(_) => {
            assert!(rt; alike(first, &VALVES) && alike(second, &VALVES));
            true
        }
        Err(fault) => {
            assert_eq!(rt; fault, CheckFault::Save(ContentFault::WrongLength));
            false
        }
    }
}

// A slice for a save that is not as long as the week is refused, and both stay as they were.
#[test]
fn saves(rt: HostRuntime) {
    for n in 0..30 {
        let mut any = [1u8; 30];
        let mut exact = [2u8; 28];
        assert_eq!(rt; saved(&rt, &mut any[..n], &mut exact), n == 28);
        assert!(rt; n == 28 || any == [1u8; 30] && exact == [2u8; 28]);
        let mut exact = [2u8; 28];
        let mut any = [1u8; 30];
        assert_eq!(rt; saved(&rt, &mut exact, &mut any[..n]), n == 28);
        assert!(rt; n == 28 || any == [1u8; 30] && exact == [2u8; 28]);
    }
}

struct Words {
    fault: CheckFault,
    length: usize,
    text: &'static str,
}

static WORDS: [Words; 4] = [
    Words {
        fault: CheckFault::Day(RefusedDay {
            day: Day::Thursday,
            fault: ContentFault::WrongLength,
        }),
        length: 20,
        text: "Thursday is refused: layer kind, number 21, place 0\nReason: the week ends after 20 of 42 bytes\nVerdict: the build stays.",
    },
    Words {
        fault: CheckFault::Day(RefusedDay {
            day: Day::Sunday,
            fault: ContentFault::WrongLength,
        }),
        length: 43,
        text: "Sunday is refused: layer kind, number 21, place 0\nReason: the week goes on after 42 bytes\nVerdict: the build stays.",
    },
    Words {
        fault: CheckFault::Day(RefusedDay {
            day: Day::Tuesday,
            fault: ContentFault::BadContent,
        }),
        length: 42,
        text: "Tuesday is refused: layer kind, number 21, place 0\nReason: an hour of the day is 3, which is neither off, low nor comfort\nVerdict: the build stays.",
    },
    Words {
        fault: CheckFault::Save(ContentFault::WrongLength),
        length: 42,
        text: "A save is refused: layer kind, number 21, place 0\nReason: the slice for it is not as long as the week\nVerdict: the build stays.",
    },
];

// A refusal in words.
#[test]
fn refusals_in_words(rt: HostRuntime) -> Result<(), Fail> {
    for case in &WORDS {
        let report = Refused {
            fault: case.fault,
            length: case.length,
        };
        assert_eq!(rt; format!(in rt.alloc(); "{report}")?.as_str(), case.text);
    }
    Ok(())
}

// Two saves are alike exactly if they have the same bytes.
#[test]
fn compares(rt: HostRuntime) {
    assert!(rt; alike(&[], &[]));
    assert!(rt; alike(&[1, 2], &[1, 2]));
    assert!(rt; !alike(&[1, 2], &[2, 1]));
    assert!(rt; !alike(&[1, 2], &[1]));
    assert!(rt; !alike(&[1], &[1, 0]));
    assert_eq!(rt; judge(&[1, 2], &[1, 2]), Verdict::MayLeave);
    assert_eq!(rt; judge(&[1, 2], &[1, 3]), Verdict::Stays);
}
