ghost use Rattle.std.specs.Prelude.{◌≡◌, ◌*◌, length};
ghost use Rattle.kinds.specs.Kind.{Writes};

use crate::day::{Day, RefusedDay};
use kinds::fault::ContentFault;
use kinds::kind::Kind;

/// Seven contents of one kind, Monday first.
#[derive(Drop)]
pub struct Week<K> {
    pub days: [K; 7],
    ghost whole: { length days ≡ 7 },
}

impl<K: Kind> Week<K> {
    ghost use Rattle.week.specs.Week.{day_index, day_part, week_bytes, LoadsDay, Loads};

    pub(crate) fn bytes_long() -> usize
        ensures { result ≡ 7 * K.width }
    {
        7 * K::width()
    }

    // What a day has of the week's bytes: the first six days a content each, Sunday all that is left.
    fn part(bytes: &[u8], day: Day) -> &[u8]
        ensures { result.now ≡ day_part K.width bytes.now (day_index day) }
    {
        let width = K::width();
        let rest = bytes.get(usize::from(day) * width..).unwrap_or_default();
        match day {
            Day::Sunday => rest,
            _ => rest.get(..width).unwrap_or(rest),
        }
    }

    fn load_day(bytes: &[u8], day: Day) -> Result<K, RefusedDay>
        ensures { LoadsDay K.Kind bytes.now day result }
    {
        K::read(Self::part(bytes, day)).map_err(|fault| RefusedDay { day, fault })
    }

    /// The week that the bytes stand for, or the first day that is refused.
    pub fn load(bytes: &[u8]) -> Result<Week<K>, RefusedDay>
        ensures { Loads K.Kind bytes.now result }
    {
        // `try_map` does not say that the day at which it stops is the first that is refused. By day: after
        // `iter_mut().zip(..)` a proof knows nothing of `days`, and `enumerate` would read Monday twice.
        let mut days = [Self::load_day(bytes, Day::Monday)?; 7];
        for &day in &Day::ALL[1..] {
            days[usize::from(day)] = Self::load_day(bytes, day)?;
        }
        Ok(Week { days })
    }

    /// Writes the seven contents one behind the other over the whole slice; one of another length stays as it was.
    pub fn save(&self, to: &mut [u8]) -> Result<(), ContentFault>
        ensures { Writes (7 * K.width) (week_bytes K.bytes self.now) to.old to.new result }
    {
        if to.len() != Self::bytes_long() {
            return Err(ContentFault::WrongLength);
        }
        let width = K::width();
        // By place: of what `chunks_exact_mut` lends, a proof knows no more than the length afterwards.
        for (i, content) in self.days.iter().enumerate() {
            let from = i * width;
            content.write(&mut to[from..from + width])?;
        }
        Ok(())
    }
}
