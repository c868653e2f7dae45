// A plant below, and a tag for each of its operations. An operation counts as tagged where it or its reverse bears a tag:
// then every step that is left leads back, whatever the tags are. Tagging and untagging take an operation and its reverse
// together.
use plant::plant::Plant;

pub mod questions;
pub mod tagging;

#[derive(Drop)]
pub struct Tagged<P: Plant> {
    below: P,
    tags: [bool; 2048],
}
