// What a list in hand tells, and how it is worked along.
ghost use Rattle.std.specs.Prelude.{◌≡◌, ◌≤◌, length, take, Some};
ghost use Rattle.std.specs.List.{slice_get};
ghost use Rattle.promise.specs.Readings.{touches};
ghost use Rattle.sequencer.specs.Table.{work_of, Moves};

use crate::sequencer::table::Table;
use plant::plant::Plant;
use plant::refusal::Refusal;

impl Table {
    // The list of so many operations at the front of these, with its target.
    pub(crate) fn new(operations: [u16; 255], count: u16, target: u32) -> Table
        requires { count ≤ 255 }
        ensures to_do { (work_of result).to_do ≡ take count operations }
        ensures target { (work_of result).target ≡ target }
    {
        Table {
            operations,
            begins: 0,
            ends: count,
            target,
        }
    }

    // The target of the list.
    pub(crate) fn target(&self) -> u32
        ensures { result ≡ (work_of self.now).target }
    {
        self.target
    }

    // The operations that are still to be done.
    pub(crate) fn to_do(&self) -> &[u16]
        ensures { result.now ≡ (work_of self.now).to_do }
    {
        &self.operations[self.begins as usize..self.ends as usize]
    }

    // How many operations are still to be done.
    pub(crate) fn length(&self) -> u16
        ensures { result ≡ length (work_of self.now).to_do }
    {
        self.ends - self.begins
    }

    // The operation at a place among those that are still to be done.
    pub(crate) fn operation(&self, place: u16) -> Option<u16>
        ensures { result ≡ slice_get (work_of self.now).to_do place }
    {
        self.to_do().get(place as usize).copied()
    }

    // The list loses its first operation, which must be this one.
    pub(crate) fn advance(&mut self, operation: u16) -> Result<(), Refusal>
        ensures { Moves (Some (work_of self.old)) operation (Some (work_of self.new)) result }
    {
        let [first, ..] = self.to_do() else {
            return Err(Refusal::WrongOperation);
        };
        if *first != operation {
            return Err(Refusal::WrongOperation);
        }
        self.begins += 1;
        Ok(())
    }

    // Whether the operation or its reverse is still to be done.
    pub(crate) fn touches<P: Plant>(&self, plant: &P, operation: u16) -> bool
        ensures { result ≡ touches (P.meaning plant.now) operation (work_of self.now).to_do }
    {
        let reverse = plant.reverse(operation);
        let list = self.to_do();
        list.iter()
            .any(|other| *other == operation || *other == reverse)
    }
}
