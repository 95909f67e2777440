// The release check on one week's schedule: loads it, saves it twice, compares, and says whether the build may leave.
#![tactic(auto)]

use kinds::row::DayRow;
use std::io::Read;
use std::process::ExitCode;
use std::{env, fs, io};
use week::check::check_week;
use week::reason::WEEK_BYTES;
use week::report::{Accepted, Refused};
use week::verdict::Verdict;

// One byte more than a week has, which is enough to see that a week is too long.
const MOST: u64 = WEEK_BYTES as u64 + 1;

// The bytes of the file that the first argument names, or else of standard input.
fn input(rt: &HostRuntime) -> io::Result<Vec<u8>> {
    let mut bytes = Vec::new(rt.alloc());
    match env::args(rt)?.nth(1) {
        Some(path) => fs::open(rt, &path)?.take(MOST).read_to_end(&mut bytes)?,
        None => rt.stdin().take(MOST).read_to_end(&mut bytes)?,
    };
    Ok(bytes)
}

// Prints the report on a week.
fn check(rt: &HostRuntime, bytes: &[u8]) -> io::Result<Verdict> {
    let mut first = [0u8; WEEK_BYTES];
    let mut second = [0u8; WEEK_BYTES];
    match check_week::<DayRow>(bytes, &mut first, &mut second) {
        Ok(checked) => {
            rt.println(Accepted::of(&checked, &first, &second))?;
            Ok(checked.verdict)
        }
        Err(fault) => {
            rt.println(Refused {
                fault,
                length: bytes.len(),
            })?;
            Ok(Verdict::Stays)
        }
    }
}

fn main(rt: HostRuntime) -> io::Result<ExitCode> {
    let verdict = match input(&rt) {
        Ok(bytes) => check(&rt, &bytes)?,
        Err(e) => {
            println!(rt; "The week cannot be read: {e}")?;
            rt.println(Verdict::Stays)?;
            Verdict::Stays
        }
    };
    Ok(verdict.into())
}
