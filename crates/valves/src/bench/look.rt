// Looking at one valve of a bench.
ghost use Rattle.std.specs.Prelude.{◌≡◌, ◌<◌, ◌↔◌, IsSome, IfSome, length};
ghost use Rattle.valves.specs.Positions.{Numbered};
ghost use Rattle.valves.specs.Of.{counts_of, position_of};

use crate::bench::Bench;
use crate::bench::at::ValveAt;

// Stays: a setting and a valve as numbers, which callers have; `valve_at` makes one struct of them.
impl Bench {
    // The position of the valve at the setting; none where there is no such setting or no such valve.
    pub fn position(&self, setting: u32, valve: u8) -> Option<u8>
        ensures exact { result ≡ position_of (counts_of self.now) setting valve }
        ensures numbered { Numbered (counts_of self.now) }
    {
        self.position_in(setting, valve)
    }

    fn position_in(&self, setting: u32, valve: u8) -> Option<u8>
        ensures { result ≡ position_of (counts_of self.now) setting valve }
    {
        Some(self.valve_at(setting, valve as usize)?.position())
    }

    // The valve at the setting, if there are such a valve and such a setting.
    pub(crate) fn valve_at(&self, setting: u32, valve: usize) -> Option<ValveAt<'_>>
        ensures there { IsSome result ↔ ((setting < self.now.settings) × (valve < length self.now.valves.items)) }
        ensures same { IfSome result (λ x. (x.bench.now ≡ self.now) × (x.setting ≡ setting) × (x.valve ≡ valve)) }
    {
        if setting >= self.settings || valve >= self.valves.len() {
            return None;
        }
        Some(ValveAt {
            bench: self,
            setting,
            valve,
        })
    }
}
