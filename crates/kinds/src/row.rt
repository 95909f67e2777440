ghost use Rattle.std.specs.Prelude.{◌≡◌, ◌<◌, length};

use crate::fault::ContentFault;
use crate::kind::Kind;
use std::array;

/// What the heating does in one hour; each mode's number is its code in two bits.
#[derive(Clone, Copy, PartialEq, Eq, Debug)]
pub enum HourMode {
    Off = 0,
    Low = 1,
    Comfort = 2,
}

/// The 24 hours of one day, midnight first.
#[derive(Clone, Copy, PartialEq, Eq, Debug)]
pub struct DayRow {
    pub hours: [HourMode; 24],
    ghost whole: { length hours ≡ 24 },
}

// The mode that a two-bit code stands for; 3 stands for none.
impl TryFrom<u8> for HourMode {
    ghost use Rattle.std.specs.Option.{ok_or};
    ghost use Rattle.kinds.specs.declared.fault.ContentFault.TheVariants.{BadContent};
    ghost use Rattle.kinds.specs.Row.{mode_of};

    type Error = ContentFault;

    ghost try_from_gives = { λ code r. r ≡ ok_or (mode_of code) BadContent };

    fn try_from(code: u8) -> Result<HourMode, ContentFault> {
        match code {
            0 => Ok(HourMode::Off),
            1 => Ok(HourMode::Low),
            2 => Ok(HourMode::Comfort),
            _ => Err(ContentFault::BadContent),
        }
    }
}

impl From<HourMode> for u8 {
    ghost use Rattle.kinds.specs.Row.{code_of};

    ghost from_gives = { λ mode code. code ≡ code_of mode };

    fn from(mode: HourMode) -> u8 {
        mode as u8
    }
}

impl DayRow {
    ghost use Rattle.kinds.specs.Row.{hour_bits, row_byte};

    // The two bits in which a row's bytes hold an hour.
    fn code_at(bytes: &[u8; 6], hour: usize) -> u8
        requires { hour < 24 }
        ensures { result ≡ hour_bits bytes.now hour }
    {
        (bytes[hour / 4] >> (2 * (hour % 4))) % 4
    }

    // The byte that holds the hours 4 * i to 4 * i + 3.
    fn packed(&self, i: usize) -> u8
        requires { i < 6 }
        ensures { result ≡ row_byte self.now.hours i }
    {
        let code = |hour: usize| u8::from(self.hours[hour]);
        let at = 4 * i;
        code(at) + 4 * code(at + 1) + 16 * code(at + 2) + 64 * code(at + 3)
    }
}

impl Kind for DayRow {
    ghost use Rattle.std.proofs.Common.{ap, ◌∙◌, sym, arith, rules};
    ghost use Rattle.std.specs.Prelude.{slice_index_or};
    ghost use Rattle.std.proofs.lemmas.List.{ext_get_or};
    ghost use Rattle.std.proofs.lemmas.List.FromFn.{length-map-range_with_len};
    ghost use denote.Struct.Record.{values_one};
    ghost use Rattle.kinds.specs.contracts.row.HourMode.{the_row};
    ghost use Rattle.kinds.specs.contracts.row.DayRow.{struct, the_propositions};
    ghost use Rattle.kinds.specs.declared.row.HourMode.TheVariants.{Off};
    ghost use Rattle.kinds.specs.Faults.{fault_fine};
    ghost use Rattle.kinds.specs.Row.{hour_bits, row_byte, row_bytes, row_fault, hours_legal};
    ghost use Rattle.kinds.specs.Rows.{code_apart, hour_bits-row_bytes, code_le, all_legal, row_complete};

    ghost width = { 6 };

    ghost bytes = { row_bytes };

    ghost fault = { row_fault };

    ghost bounded = { Prim.search rules };

    ghost sized = { Prim.search rules };

    ghost octets = { Prim.search rules };

    ghost injective = { λ x y e.
        let same : x.hours ≡ y.hours = ext_get_or Off x.hours y.hours (omega arith)
        (λ k h. code_apart _ _ (sym (hour_bits-row_bytes x k (omega arith)) ∙ ap (λ bs. hour_bits bs k) e ∙ hour_bits-row_bytes y k (omega arith))) in
        values_one struct (the_propositions the_row.coded) x y (λ i. (same i, tt)) };

    ghost readable = { λ x.
        let legal = all_legal (row_bytes x) 24
        (λ k h. omega (arith, hour_bits-row_bytes x k h, code_le (slice_index_or x.hours k Off))) in
        Prim.search rules };

    ghost complete = { row_complete };

    ghost measured = { Prim.search rules };

    fn width() -> usize {
        6 // 24 hours, four to a byte
    }

    fn read(from: &[u8]) -> Result<DayRow, ContentFault> {
        let bytes = <[u8; 6]>::try_from(from)?;
        let mut hours = [HourMode::Off; 24];
        // No `try_from_fn`: it does not say of which bytes its calls read.
        for (hour, mode) in hours.iter_mut().enumerate() {
            *mode = HourMode::try_from(Self::code_at(&bytes, hour))?;
        }
        Ok(DayRow { hours })
    }

    fn write(&self, to: &mut [u8]) -> Result<(), ContentFault> {
        // Straight into the slice, and not by `write_whole`: copied from an array of their own, bytes
        // that are each computed take a third more time.
        let whole = to.as_mut_array::<6>().ok_or(ContentFault::WrongLength)?;
        *whole = array::from_fn(|i| self.packed(i));
        Ok(())
    }
}
