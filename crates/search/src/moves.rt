// The layers move down: the layer before is given up, and what stands behind it moves to the front.
ghost use Rattle.std.specs.Prelude.{◌≡◌, ◌-◌, ◌≤◌, map, length, take, drop};
ghost use Rattle.search.specs.Stored.{stored, store_of, count, standing, Advanced};

use crate::lookup::Lookup;
use crate::record::Record;
use crate::search::Search;
use crate::sizes::Sizes;
use plant::plant::Plant;

// Moves the first `count` records down by `gone` places; those that leave are found behind the others.
fn move_down<R: Record>(room: &mut [R], count: usize, gone: usize)
    requires count { count ≤ length room.old }
    requires gone { gone ≤ count }
    ensures front { take (count - gone) room.new ≡ drop gone (take count room.old) }
    ensures behind { drop count room.new ≡ drop count room.old }
{
    room[0..count].rotate_left(gone);
}

// Gives the layer before up, and tells the lookup that it leaves: the present layer is now before, and the next one
// present.
fn give_up<R: Record, L: Lookup<R>>(room: &mut [R], sizes: &mut Sizes, lookup: &mut L)
    requires { count (stored room.old sizes.old) ≤ length room.old }
    ensures advanced { Advanced (stored room.old sizes.old) (stored room.new sizes.new) }
    ensures follows { L.Lookup.follows lookup.old (map R.Record.tells (standing (stored room.old sizes.old))) → L.Lookup.follows lookup.new (map R.Record.tells (standing (stored room.new sizes.new))) }
{
    let count = sizes.before + sizes.present + sizes.next;
    lookup.lower(&room[0..count], sizes.before);
    move_down(room, count, sizes.before);
    *sizes = Sizes {
        before: sizes.present,
        present: sizes.next,
        next: 0,
    };
}

impl<'p, 'a, P: Plant, R: Record, L: Lookup<R>> Search<'p, 'a, P, R, L> {
    // Gives the layer before up.
    pub(crate) fn advance(&mut self)
        ensures advanced { Advanced (store_of self.old) (store_of self.new) }
        ensures task { self.new.task ≡ self.old.task }
        ensures lender { self.new.room.ghost_name ≡ self.old.room.ghost_name }
    {
        give_up(self.room, &mut self.sizes, &mut self.lookup);
    }
}
