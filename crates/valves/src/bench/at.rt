// A valve of a bench at a setting: its position, and whether it can move from there.
ghost use Rattle.std.specs.Prelude.{◌≡◌, ◌<◌, length, slice_index};
ghost use Rattle.valves.specs.Interlocks.{barred as any_bars, applies_to};
ghost use Rattle.valves.specs.Bench.{gone_up, gone_down};
ghost use Rattle.valves.specs.Of.{counts_of, interlocks_of, placed};

use crate::bench::Bench;
use crate::interlock::Interlock;

#[derive(Clone, Copy)]
pub(crate) struct ValveAt<'a> {
    pub(crate) bench: &'a Bench,
    pub(crate) setting: u32,
    pub(crate) valve: usize,
    ghost inside: { setting < bench.now.settings },
    ghost there: { valve < length bench.now.valves.items },
}

impl ValveAt<'_> {
    // The position of the valve.
    pub(crate) fn position(self) -> u8
        ensures { result ≡ slice_index (placed self.entry.bench.now self.entry.setting) self.entry.valve }
    {
        self.bench.valves[self.valve].stands(self.setting)
    }

    // The setting after the valve goes one position up, if it does.
    pub(crate) fn up(self) -> Option<u32>
        ensures { result ≡ gone_up (counts_of self.entry.bench.now) (interlocks_of self.entry.bench.now) (placed self.entry.bench.now self.entry.setting) self.entry.valve }
    {
        let valve = &self.bench.valves[self.valve];
        let from = valve.stands(self.setting);
        let to = from + 1;
        if to >= valve.positions || self.barred(from, to) {
            return None;
        }
        Some(self.setting + valve.weight)
    }

    // The setting after the valve goes one position down, if it does.
    pub(crate) fn down(self) -> Option<u32>
        ensures { result ≡ gone_down (counts_of self.entry.bench.now) (interlocks_of self.entry.bench.now) (placed self.entry.bench.now self.entry.setting) self.entry.valve }
    {
        let valve = &self.bench.valves[self.valve];
        let from = valve.stands(self.setting);
        let to = from.checked_sub(1)?;
        if self.barred(from, to) {
            return None;
        }
        Some(self.setting - valve.weight)
    }

    // Whether an interlock bars the valve from going from one position to the other. It looks at the interlocks of this
    // valve alone.
    fn barred(self, from: u8, to: u8) -> bool
        ensures { result ≡ any_bars self.entry.valve from to (placed self.entry.bench.now self.entry.setting) (interlocks_of self.entry.bench.now) }
    {
        let mut at = self.bench.valves[self.valve].first as usize;
        // Stays: the rows of a valve are linked by their numbers; a pass over all rows would take up to 32 turns in each step.
        while let Some(row) = self.bench.rows.get(at) {
            if self.applies(row.lock, from, to) {
                return true;
            }
            at = row.following as usize;
        }
        false
    }

    // Whether an interlock of a valve that goes from one position to the other applies to that move.
    fn applies(self, lock: Interlock, from: u8, to: u8) -> bool
        requires { lock.other < length self.bench.now.valves.items }
        ensures { result ≡ applies_to from to (placed self.entry.bench.now self.entry.setting) lock }
    {
        (lock.position == from || lock.position == to)
            && self.bench.valves[lock.other as usize].stands(self.setting) == lock.stands
    }
}
