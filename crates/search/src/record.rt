// The kinds of record that layers are made of. Each tells its setting; what else it carries begins with the leg and is
// handed on from step to step.
ghost use Rattle.std.specs.Prelude.{◌≡◌, ℕ, refl};
ghost use Rattle.search.specs.Records.{relay_opens, relay_carries, relay_blank};

use legs::relayed::Relayed;

pub trait Record: Copy {
    // the setting that a record tells
    ghost tells: { Self → ℕ };

    // the record of a start, and the record that a step makes of one: by the depth at which relays are taken, the depth
    // of the new record, the record that it comes from and the new setting
    ghost opens: { ℕ → Self };

    ghost carries: { ℕ → ℕ → Self → ℕ → Self };

    // what every place of a workspace holds after a search
    ghost blank: { Self };

    fn setting(&self) -> u32
        ensures { result ≡ tells self.now };

    fn open(start: u32) -> Self
        ensures { result ≡ opens start };

    fn carry(&self, half: u16, depth: u16, setting: u32) -> Self
        ensures { result ≡ carries half depth self.now setting };

    fn zero() -> Self
        ensures { result ≡ blank };

    ghost opened: { (s : ℕ) → tells (opens s) ≡ s };

    ghost carried: { (h d : ℕ) (r : Self) (u : ℕ) → tells (carries h d r u) ≡ u };
}

// The setting alone.
impl Record for u32 {
    ghost tells = { λ r. r };

    ghost opens = { λ s. s };

    ghost carries = { λ h d r u. u };

    ghost blank = { 0 };

    ghost opened = { λ s. refl };

    ghost carried = { λ h d r u. refl };

    fn setting(&self) -> u32 {
        *self
    }

    fn open(start: u32) -> u32 {
        start
    }

    fn carry(&self, _half: u16, _depth: u16, setting: u32) -> u32 {
        setting
    }

    fn zero() -> u32 {
        0
    }
}

// A setting and the setting that was passed half way.
impl Record for Relayed {
    ghost tells = { λ r. r.setting };

    ghost opens = { relay_opens };

    ghost carries = { relay_carries };

    ghost blank = { relay_blank };

    ghost opened = { λ s. refl };

    ghost carried = { λ h d r u. refl };

    fn setting(&self) -> u32 {
        self.setting
    }

    fn open(start: u32) -> Relayed {
        Relayed {
            setting: start,
            relay: 0,
        }
    }

    fn carry(&self, half: u16, depth: u16, setting: u32) -> Relayed {
        let relay = if depth == half { setting } else { self.relay };
        Relayed { setting, relay }
    }

    fn zero() -> Relayed {
        Relayed::default()
    }
}
