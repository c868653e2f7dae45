// A sequencer over a plant that it holds: the plant with the sequencer's own tags, the present setting, and the list in
// hand with its target.
use self::table::Table;
use plant::plant::Plant;
use tagged::tagged::Tagged;

pub mod listing;
pub mod planning;
pub mod questions;
pub mod setting;
mod table;
pub mod tagging;

#[derive(Drop)]
pub struct Sequencer<P: Plant> {
    plant: Tagged<P>,
    setting: u32,
    // the list in hand, if there is one
    list: Option<Table>,
}
