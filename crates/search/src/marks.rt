// Looking up by marks: one bit for each setting of the plant, in memory that the caller lends.
ghost use Rattle.std.specs.Prelude.{◌≡◌, ℕ, false, List, [], ◌∷◌, ◌++◌, map, drop};
ghost use Rattle.legs.specs.Layers.{has};
ghost use Rattle.search.specs.Marked.{Follows};

use crate::lookup::{Lookup, stands};
use crate::record::Record;

// Marks of the settings that the memory has bits for; the others are looked up record by record.
#[derive(Drop)]
pub(crate) struct Marks<'a> {
    pub(crate) memory: &'a mut [u32],
}

impl<'a> Marks<'a> {
    // No setting is marked, whatever the memory held.
    pub(crate) fn over(memory: &'a mut [u32]) -> Marks<'a>
        ensures { Follows result [] }
    {
        memory.fill(0);
        Marks { memory }
    }

    // Turns the mark of a setting over.
    fn turn(&mut self, setting: u32)
        ensures marks { (ss : List ℕ) → has ss setting ≡ false → Follows self.old ss → Follows self.new (ss ++ (setting ∷ [])) }
        ensures unmarks { (ss : List ℕ) → Follows self.old (setting ∷ ss) → Follows self.new ss }
    {
        // Stays: with `get_mut` the check knows no more what the memory holds, also where there is no such word.
        let word = (setting / 32) as usize;
        if word >= self.memory.len() {
            return;
        }
        self.memory[word] ^= 1 << (setting % 32);
    }

    // Takes back the marks of these records.
    fn take_back<R: Record>(&mut self, records: &[R])
        ensures { (ss : List ℕ) → Follows self.old (map R.Record.tells records.now ++ ss) → Follows self.new ss }
    {
        for record in records {
            self.turn(record.setting());
        }
    }
}

impl<'a, R: Record> Lookup<R> for Marks<'a> {
    ghost follows = { Follows };

    fn meets(&self, records: &[R], setting: u32) -> bool {
        match self.memory.get((setting / 32) as usize) {
            Some(word) => (*word >> (setting % 32)) % 2 == 1,
            None => stands(records, setting),
        }
    }

    fn enter(&mut self, _place: usize, setting: u32) {
        self.turn(setting);
    }

    fn lower(&mut self, records: &[R], gone: usize) {
        self.take_back(&records[..gone]);
    }
}
