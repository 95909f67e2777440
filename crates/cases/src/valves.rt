use crate::lengths::keeps_to_width;
use kinds::fault::ContentFault;
use kinds::kind::Kind;
use kinds::round::round_trip;
use kinds::valve::Valve;
use refusal::{Layer, Place, Refusal};

// The fields as a tuple, so that a case is short.
struct Case {
    bytes: [u8; 4],
    fields: Option<(i16, u8, u8)>,
}

// The limits of each field, from both sides. A setpoint is two bytes, the low one first.
static CASES: [Case; 14] = [
    Case {
        bytes: [50, 0, 0, 0],
        fields: Some((50, 0, 0)),
    },
    Case {
        bytes: [49, 0, 0, 0],
        fields: None,
    },
    Case {
        bytes: [0x2c, 1, 0, 0],
        fields: Some((300, 0, 0)),
    },
    Case {
        bytes: [0x2d, 1, 0, 0],
        fields: None,
    },
    Case {
        bytes: [0xff, 0xff, 0, 0],
        fields: None,
    },
    Case {
        bytes: [0, 0, 0, 0],
        fields: None,
    },
    Case {
        bytes: [0, 0x80, 0, 0],
        fields: None,
    },
    Case {
        bytes: [0xd2, 0xff, 0, 0],
        fields: None,
    },
    Case {
        bytes: [0xd2, 0, 100, 3],
        fields: Some((210, 100, 3)),
    },
    Case {
        bytes: [0xd2, 0, 101, 3],
        fields: None,
    },
    Case {
        bytes: [0xd2, 0, 255, 0],
        fields: None,
    },
    Case {
        bytes: [0xd2, 0, 100, 4],
        fields: None,
    },
    Case {
        bytes: [0xd2, 0, 0, 255],
        fields: None,
    },
    Case {
        bytes: [0, 1, 50, 2],
        fields: Some((256, 50, 2)),
    },
];

#[test]
fn limits(rt: HostRuntime) {
    for case in &CASES {
        match Valve::read(&case.bytes) {
            Ok(valve) => assert_eq!(rt;
                Some((valve.setpoint, valve.opening, valve.flags)),
                case.fields
            ),
            Err(fault) => {
                assert_eq!(rt; None, case.fields);
                assert_eq!(rt; fault, ContentFault::BadContent);
            }
        }
    }
}

#[test]
fn round_trips(rt: HostRuntime) {
    for case in &CASES {
        if let Ok(valve) = Valve::read(&case.bytes) {
            let mut out = [0u8; 4];
            assert_eq!(rt; round_trip(&valve, &mut out), Ok(valve));
            assert_eq!(rt; out, case.bytes);
        }
    }
}

#[test]
fn lengths(rt: HostRuntime) {
    let valve = Valve {
        setpoint: 210,
        opening: 40,
        flags: 1,
    };
    for n in 0..66 {
        assert!(rt; keeps_to_width(4, &valve, 1, n));
    }
}

// Both cases of the fault are refusal 21 of the kinds at place 0.
#[test]
fn refusals(rt: HostRuntime) {
    let line = Refusal {
        layer: Layer::Kind,
        number: 21,
        place: Place::Zero,
    };
    for fault in [ContentFault::WrongLength, ContentFault::BadContent] {
        assert_eq!(rt; Refusal::from(fault), line);
    }
}
