// A leg from its first layer to its end.
ghost use Rattle.std.specs.Prelude.{◌≡◌, ◌≤◌, [], length, OnOk, OnErr};
ghost use Rattle.std.specs.Result.{result_ok};
ghost use Rattle.search.specs.Records.{kind};
ghost use Rattle.legs.specs.Asked.{asked};

use crate::lookup::{Lookup, stands};
use crate::overfull::Overfull;
use crate::record::Record;
use crate::search::Search;
use plant::plant::Plant;

// Where a leg ended: the depth, the settings expanded, and the most records that stood at a time.
#[derive(Clone, Copy)]
pub(crate) struct Ended {
    pub(crate) depth: u16,
    pub(crate) expanded: u64,
    pub(crate) used: usize,
}

impl<'p, 'a, P: Plant, R: Record, L: Lookup<R>> Search<'p, 'a, P, R, L> {
    ghost use Rattle.search.specs.Stored.{store_of, count};
    ghost use Rattle.search.specs.Stands.{Stands, Begun};
    ghost use Rattle.search.specs.Walked.{over, Ran};

    // The first layer: the start, if it fits. A leg needs one record at least.
    pub(crate) fn begin(&mut self) -> Result<(), Overfull>
        requires { count (store_of self.old) ≡ 0 }
        ensures begun { OnOk result (Begun (P.meaning self.old.task.plant.now) (kind R.Record.tells R.Record.opens R.Record.carries self.old.task.half) (asked self.old.task.leg) (store_of self.old) (store_of self.new)) }
        ensures some { OnOk result (1 ≤ length self.old.room.now) }
        ensures none { OnErr result (length self.old.room.now ≡ 0) }
        ensures task { self.new.task ≡ self.old.task }
        ensures lender { self.new.room.ghost_name ≡ self.old.room.ghost_name }
    {
        // Stays: after `is_empty()` the check knows no more what the records hold.
        if self.room.len() == 0 {
            return Err(Overfull);
        }
        let start = self.task.leg.start;
        if self.admits(0, start) {
            self.push(R::open(start))?;
            self.sizes.next = 0;
            self.sizes.present = 1;
        }
        Ok(())
    }

    // Whether a leg that has come to this depth ends there: the layer holds the target, is empty, or is at the bound.
    fn ended(&self, depth: u16) -> bool
        ensures { result ≡ over R.Record.tells (store_of self.now) (asked self.now.task.leg) depth }
    {
        let leg = self.task.leg;
        self.sizes.present == 0 || depth == leg.bound || stands(self.present_layer(), leg.target)
    }

    // Goes on from the first layer to the leg's end.
    pub(crate) fn run(&mut self) -> Result<Ended, Overfull>
        requires some { 1 ≤ length self.old.room.now }
        requires stands { Stands (P.meaning self.old.task.plant.now) (kind R.Record.tells R.Record.opens R.Record.carries self.old.task.half) (asked self.old.task.leg) 0 [] (store_of self.old) }
        ensures ran { Ran (P.meaning self.old.task.plant.now) (kind R.Record.tells R.Record.opens R.Record.carries self.old.task.half) (asked self.old.task.leg) (store_of self.old) (store_of self.new) (result_ok result) }
        ensures task { self.new.task ≡ self.old.task }
        ensures lender { self.new.room.ghost_name ≡ self.old.room.ghost_name }
    {
        let mut depth = 0u16;
        let mut expanded = 0u64;
        let mut used = 1usize;
        // Stays: nothing is indexed; the layers say where the leg ends.
        while !self.ended(depth) {
            self.expand_layer(depth)?;
            expanded += self.sizes.present as u64;
            used = used.max(self.count());
            self.advance();
            depth += 1;
        }
        Ok(Ended {
            depth,
            expanded,
            used,
        })
    }
}
