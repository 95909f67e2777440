ghost use Rattle.std.specs.Prelude.{◌≤◌, pos, ◌≤ℤ◌};

use crate::fault::ContentFault;
use crate::kind::{Kind, write_whole};

/// What one valve is set to: the setpoint in tenths of a degree, the opening in percent, and flags 0 to 3.
#[derive(Clone, Copy, PartialEq, Eq, Debug)]
pub struct Valve {
    pub setpoint: i16,
    pub opening: u8,
    pub flags: u8,
    ghost above: { pos 50 ≤ℤ setpoint },
    ghost below: { setpoint ≤ℤ pos 300 },
    ghost percent: { opening ≤ 100 },
    ghost flagged: { flags ≤ 3 },
}

impl Kind for Valve {
    ghost use Rattle.std.specs.Prelude.{◌≡◌};
    ghost use Rattle.std.proofs.Common.{arith, rules};
    ghost use Rattle.std.proofs.lemmas.Int.{ints};
    ghost use denote.Struct.Record.{values_one};
    ghost use Rattle.kinds.specs.contracts.valve.Valve.{struct, the_propositions};
    ghost use Rattle.kinds.specs.Valve.{valve_bytes, valve_fault};
    ghost use Rattle.kinds.specs.Valves.{valve_complete};

    ghost width = { 4 };

    ghost bytes = { valve_bytes };

    ghost fault = { valve_fault };

    ghost bounded = { Prim.search rules };

    ghost sized = { Prim.search rules };

    ghost octets = { Prim.search rules };

    ghost injective = { λ x y e.
        let s : x.setpoint ≡ y.setpoint = Prim.grind (arith, ints) in
        let o : x.opening ≡ y.opening = cc in
        let f : x.flags ≡ y.flags = cc in
        values_one struct the_propositions x y (λ i. (s i, (o i, (f i, tt)))) };

    ghost readable = { Prim.search rules };

    ghost complete = { valve_complete };

    ghost measured = { Prim.search rules };

    fn width() -> usize {
        4 // two for the setpoint, one for the opening, one for the flags
    }

    fn read(from: &[u8]) -> Result<Valve, ContentFault> {
        let [low, high, opening, flags] = <[u8; 4]>::try_from(from)?;
        let setpoint = i16::from_le_bytes([low, high]);
        if !(50..=300).contains(&setpoint) || opening > 100 || flags > 3 {
            return Err(ContentFault::BadContent);
        }
        Ok(Valve {
            setpoint,
            opening,
            flags,
        })
    }

    fn write(&self, to: &mut [u8]) -> Result<(), ContentFault> {
        let [low, high] = self.setpoint.to_le_bytes();
        write_whole(&[low, high, self.opening, self.flags], to)
    }
}
