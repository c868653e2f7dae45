// Filling the next layer: by one arrival, by one operation, by one record, by the whole layer.
ghost use Rattle.std.specs.Prelude.{◌≡◌, ◌+◌, ◌<◌, [], Some};
ghost use Rattle.std.specs.Result.{is_ok};
ghost use Rattle.search.specs.Records.{kind};
ghost use Rattle.legs.specs.Asked.{asked};
ghost use Rattle.search.specs.Stored.{store_of};
ghost use Rattle.search.specs.Offered.{arriving, Taken};
ghost use Rattle.search.specs.Stands.{Stands, filled_by, Expanded, Completed};

use crate::lookup::Lookup;
use crate::overfull::Overfull;
use crate::record::Record;
use crate::search::Search;
use plant::plant::Plant;

impl<'p, 'a, P: Plant, R: Record, L: Lookup<R>> Search<'p, 'a, P, R, L> {
    // Takes in a setting that a step led to, unless it is met already or does not fit.
    fn offer(&mut self, depth: u16, from: R, to: u32) -> Result<(), Overfull>
        ensures taken { Taken (store_of self.old) (store_of self.new) (arriving R.Record.tells (P.meaning self.old.task.plant.now) (asked self.old.task.leg) depth (R.Record.carries self.old.task.half depth from) (store_of self.old) (Some to)) (is_ok result) }
        ensures task { self.new.task ≡ self.old.task }
        ensures lender { self.new.room.ghost_name ≡ self.old.room.ghost_name }
    {
        if self.meets(to) {
            return Ok(());
        }
        if !self.admits(depth, to) {
            return Ok(());
        }
        self.push(from.carry(self.task.half, depth, to))
    }

    // Takes in what the operation leads to from the record, if anything.
    fn attempt(&mut self, depth: u16, from: R, operation: u16) -> Result<(), Overfull>
        ensures taken { Taken (store_of self.old) (store_of self.new) (arriving R.Record.tells (P.meaning self.old.task.plant.now) (asked self.old.task.leg) depth (R.Record.carries self.old.task.half depth from) (store_of self.old) ((P.meaning self.old.task.plant.now).step (R.Record.tells from) operation)) (is_ok result) }
        ensures task { self.new.task ≡ self.old.task }
        ensures lender { self.new.room.ghost_name ≡ self.old.room.ghost_name }
    {
        match self.task.plant.step(from.setting(), operation) {
            Some(to) => self.offer(depth, from, to),
            None => Ok(()),
        }
    }

    // Expands the record at this place of the present layer: every operation, in their order.
    fn expand_record(&mut self, depth: u16, place: usize) -> Result<(), Overfull>
        requires place { place < self.old.sizes.present }
        requires depth { depth < 65535 }
        requires stands { Stands (P.meaning self.old.task.plant.now) (kind R.Record.tells R.Record.opens R.Record.carries self.old.task.half) (asked self.old.task.leg) depth (filled_by (P.meaning self.old.task.plant.now) (kind R.Record.tells R.Record.opens R.Record.carries self.old.task.half) (asked self.old.task.leg) depth place) (store_of self.old) }
        ensures expanded { Expanded (P.meaning self.old.task.plant.now) (kind R.Record.tells R.Record.opens R.Record.carries self.old.task.half) (asked self.old.task.leg) depth (place + 1) (store_of self.old) (store_of self.new) (is_ok result) }
        ensures task { self.new.task ≡ self.old.task }
        ensures lender { self.new.room.ghost_name ≡ self.old.room.ghost_name }
    {
        let at = self.sizes.before + place;
        let from = self.room[at];
        for operation in 0..self.task.plant.operations() {
            self.attempt(depth + 1, from, operation)?;
        }
        Ok(())
    }

    // Expands the whole present layer, so that the next one is complete.
    pub(crate) fn expand_layer(&mut self, depth: u16) -> Result<(), Overfull>
        requires depth { depth < 65535 }
        requires stands { Stands (P.meaning self.old.task.plant.now) (kind R.Record.tells R.Record.opens R.Record.carries self.old.task.half) (asked self.old.task.leg) depth [] (store_of self.old) }
        ensures completed { Completed (P.meaning self.old.task.plant.now) (kind R.Record.tells R.Record.opens R.Record.carries self.old.task.half) (asked self.old.task.leg) depth (store_of self.old) (store_of self.new) (is_ok result) }
        ensures task { self.new.task ≡ self.old.task }
        ensures lender { self.new.room.ghost_name ≡ self.old.room.ghost_name }
    {
        let count = self.sizes.present;
        for place in 0..count {
            self.expand_record(depth, place)?;
        }
        Ok(())
    }
}
