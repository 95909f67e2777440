use crossing::compare::same_week;
use crossing::cross::cross;
use crossing::crossing::{Crossing, Order};
use crossing::report::Seen;
use kinds::kind::Kind;
use kinds::row::DayRow;
use kinds::valve::Valve;
use network::fault::NetworkFault;
use network::lanes::Lanes;
use network::open_bus::OpenBus;
use std::process::Abort;
use std::test::Fail;
use week::week::Week;

// A crossing, the days in the order in which they are taken, and what the last place gives at
// first.
struct Case {
    order: Order,
    taken: [usize; 7],
    held: Option<NetworkFault>,
}

static OVER_LANES: [Case; 2] = [
    Case {
        order: Order::OldestFirst,
        taken: [0, 1, 2, 3, 4, 5, 6],
        held: Some(NetworkFault::NotReady(6)),
    },
    Case {
        order: Order::NewestFirst,
        taken: [1, 3, 5, 0, 2, 4, 6],
        held: Some(NetworkFault::NotReady(6)),
    },
];

static OVER_BUS: [Case; 2] = [
    Case {
        order: Order::OldestFirst,
        taken: [0, 1, 2, 3, 4, 5, 6],
        held: None,
    },
    Case {
        order: Order::NewestFirst,
        taken: [6, 5, 4, 3, 2, 1, 0],
        held: None,
    },
];

fn seen_as<K: Kind>(rt: &impl Abort, week: &Week<K>, seen: &Crossing<K>, case: &Case) {
    assert!(rt; same_week(week, &seen.arrived) && seen.equal);
    assert_eq!(rt; seen.sequence, case.taken);
    assert_eq!(rt; (seen.posted, seen.taken), (7, 7));
    assert_eq!(rt; seen.full, Some(NetworkFault::Full));
    assert_eq!(rt; seen.missing, Some(NetworkFault::NoPlace(7)));
    assert_eq!(rt; seen.held, case.held);
}

// Seven rows that differ, each by its first hours.
static ROWS: [u8; 42] = [
    0x00, 0, 0, 0, 0, 0, 0x01, 0, 0, 0, 0, 0, 0x02, 0, 0, 0, 0, 0, 0x04, 0, 0, 0, 0, 0, 0x05, 0, 0,
    0, 0, 0, 0x06, 0, 0, 0, 0, 0, 0x08, 0, 0, 0, 0, 0,
];

// Seven valve records that differ in their setpoints, 21.0 to 21.6 degrees.
static VALVES: [u8; 28] = [
    0xd2, 0, 0, 0, 0xd3, 0, 0, 0, 0xd4, 0, 0, 0, 0xd5, 0, 0, 0, 0xd6, 0, 0, 0, 0xd7, 0, 0, 0, 0xd8,
    0, 0, 0,
];

// Once for rows and once for valves: one generic test would owe that a crossing of any content fits
// into memory.
#[test]
fn rows(rt: HostRuntime) -> Result<(), Fail> {
    let week = Week::<DayRow>::load(&ROWS)?;
    for case in &OVER_LANES {
        let seen = cross(rt.alloc(), Lanes, &week, case.order)?;
        seen_as(&rt, &week, &seen, case);
    }
    for case in &OVER_BUS {
        let seen = cross(rt.alloc(), OpenBus, &week, case.order)?;
        seen_as(&rt, &week, &seen, case);
    }
    Ok(())
}

#[test]
fn valves(rt: HostRuntime) -> Result<(), Fail> {
    let week = Week::<Valve>::load(&VALVES)?;
    for case in &OVER_LANES {
        let seen = cross(rt.alloc(), Lanes, &week, case.order)?;
        seen_as(&rt, &week, &seen, case);
    }
    for case in &OVER_BUS {
        let seen = cross(rt.alloc(), OpenBus, &week, case.order)?;
        seen_as(&rt, &week, &seen, case);
    }
    Ok(())
}

// A week differs from one in which any single day is another.
#[test]
fn compared(rt: HostRuntime) -> Result<(), Fail> {
    let week = Week::<DayRow>::load(&ROWS)?;
    assert!(rt; same_week(&week, &Week::load(&ROWS)?));
    for day in 0..7 {
        let mut bytes = ROWS;
        bytes[6 * day + 5] = 0x80;
        assert!(rt; !same_week(&week, &Week::load(&bytes)?));
    }
    Ok(())
}

// What is printed of a crossing, also of one that no network gives.
struct Printed {
    equal: bool,
    held: Option<NetworkFault>,
    text: &'static str,
}

static PRINTED: [Printed; 2] = [
    Printed {
        equal: true,
        held: Some(NetworkFault::NotReady(6)),
        text: "Over the stairs, newest first: 7 rows posted, 3 taken, arrived equal\n  Taken: Sunday Monday Tuesday Wednesday Thursday Friday Saturday\n  One more: refused, layer network, number 17, place 0\n  A place behind the last: accepted\n  The last place first: refused, layer network, number 16, place 6",
    },
    Printed {
        equal: false,
        held: None,
        text: "Over the stairs, newest first: 7 rows posted, 3 taken, did not arrive equal\n  Taken: Sunday Monday Tuesday Wednesday Thursday Friday Saturday\n  One more: refused, layer network, number 17, place 0\n  A place behind the last: accepted\n  The last place first: ready",
    },
];

#[test]
fn shown(rt: HostRuntime) -> Result<(), Fail> {
    for case in &PRINTED {
        let crossing = Crossing {
            arrived: Week::<DayRow>::load(&ROWS)?,
            equal: case.equal,
            sequence: [6, 0, 1, 2, 3, 4, 5],
            posted: 7,
            taken: 3,
            full: Some(NetworkFault::Full),
            missing: None,
            held: case.held,
        };
        let seen = Seen {
            network: "stairs",
            order: Order::NewestFirst,
            crossing: &crossing,
        };
        assert_eq!(rt; format!(in rt.alloc(); "{seen}")?.as_str(), case.text);
    }
    Ok(())
}
