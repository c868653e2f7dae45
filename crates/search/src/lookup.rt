// How a setting is looked up among the records of a workspace: one interface, so that the search above is proved once
// over every way of looking. What looks up is told when a record enters and when the layers move down, so that an index in
// memory of its own can follow.
ghost use Rattle.std.specs.Prelude.{◌≡◌, ℕ, ◌≤◌, false, List, [], ◌∷◌, ◌++◌, map, length, drop};
ghost use Rattle.legs.specs.Layers.{has};

use crate::record::Record;

pub(crate) trait Lookup<R: Record>: Drop {
    // it follows records of these settings, in the order of their places
    ghost follows: { Self → List ℕ → Type 0 };

    // Whether one of the records has this setting.
    fn meets(&self, records: &[R], setting: u32) -> bool
        requires { ∥ follows self.now (map R.Record.tells records.now) ∥₁ }
        ensures { result ≡ has (map R.Record.tells records.now) setting };

    // A record with this setting, which none of the others has, has entered behind them, at this place.
    fn enter(&mut self, place: usize, setting: u32)
        ensures { (ss : List ℕ) → length ss ≡ place → has ss setting ≡ false → follows self.old ss → follows self.new (ss ++ (setting ∷ [])) };

    // The first of these records leave, so many, and the others move down to the front.
    fn lower(&mut self, records: &[R], gone: usize)
        requires { gone ≤ length records.now }
        ensures { follows self.old (map R.Record.tells records.now) → follows self.new (drop gone (map R.Record.tells records.now)) };
}

// Looks at every record. It keeps nothing, so there is nothing to follow.
#[derive(Clone, Copy)]
pub(crate) struct Scan;

impl<R: Record> Lookup<R> for Scan {
    ghost follows = { λ s ss. Unit {0} };

    fn meets(&self, records: &[R], setting: u32) -> bool {
        stands(records, setting)
    }

    fn enter(&mut self, _place: usize, _setting: u32) {}

    fn lower(&mut self, _records: &[R], _gone: usize) {}
}

// What is lent follows as it does where it is.
impl<R: Record, L: Lookup<R>> Lookup<R> for &mut L {
    ghost follows = { λ l ss. L.Lookup.follows l.now ss };

    fn meets(&self, records: &[R], setting: u32) -> bool {
        (**self).meets(records, setting)
    }

    fn enter(&mut self, place: usize, setting: u32) {
        (**self).enter(place, setting);
    }

    fn lower(&mut self, records: &[R], gone: usize) {
        (**self).lower(records, gone);
    }
}

// Whether one of these records has the setting.
pub(crate) fn stands<R: Record>(records: &[R], setting: u32) -> bool
    ensures { result ≡ has (map R.Record.tells records.now) setting }
{
    // Stays: a loop in place of `any`, which takes a fifth more instructions for each record.
    for record in records {
        if record.setting() == setting {
            return true;
        }
    }
    false
}
