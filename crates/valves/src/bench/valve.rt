// A valve of a bench, and its position at a setting.
ghost use Rattle.std.specs.Prelude.{◌≡◌, ◌+◌, ◌*◌, ◌/◌, ◌%◌, ◌<◌, ◌≤◌};
ghost use Rattle.valves.specs.Tables.{whole};

// What a share is a part of. Four wholes fit 64 bits.
const WHOLE: u64 = 4611686018427387904;

// The fields lie in this order so that a valve takes 16 bytes.
#[derive(Clone, Copy)]
pub(crate) struct Valve {
    // what part of a whole one setting of the valves up to this one takes up, rounded up: a product by it stands for
    // two divisions
    share: u64,
    // what one position adds to the setting
    pub(crate) weight: u32,
    pub(crate) positions: u8,
    // the row of the first interlock of the valve; the number of interlocks where there is none
    pub(crate) first: u8,
    ghost two: { 2 ≤ positions },
    ghost four: { positions ≤ 4 },
    ghost some: { 1 ≤ weight },
    ghost few: { weight * positions ≤ 16777216 },
    ghost shared: { share ≡ whole / (weight * positions) + 1 },
}

impl Valve {
    pub(crate) fn new(positions: u8, weight: u32, first: u8) -> Valve
        requires two { 2 ≤ positions }
        requires four { positions ≤ 4 }
        requires some { 1 ≤ weight }
        requires few { weight * positions ≤ 16777216 }
        ensures positions { result.positions ≡ positions }
        ensures weight { result.weight ≡ weight }
        ensures first { result.first ≡ first }
    {
        Valve {
            positions,
            weight,
            share: WHOLE / (weight * positions as u32) as u64 + 1,
            first,
        }
    }

    // The position of the valve at the setting: one digit of it. So many shares as the setting says, less the wholes
    // among them, are the part of a whole that the valves up to this one have gone through. Each position of this
    // valve is as large a part of that whole.
    pub(crate) fn stands(&self, setting: u32) -> u8
        ensures digit { result ≡ setting / self.now.weight % self.now.positions }
        ensures few { result < 4 }
    {
        let part = (setting as u64).wrapping_mul(self.share) % WHOLE;
        (part * self.positions as u64 / WHOLE) as u8
    }
}

// What stands where there is no valve.
impl Default for Valve {
    fn default() -> Valve {
        Valve::new(2, 1, 0)
    }
}
