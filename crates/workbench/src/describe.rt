// A setting in words: the positions of the valves, the station, or both.
use pair::pair::Pair;
use plant::plant::Plant;
use std::alloc::{AllocError, Global};
use std::fmt::Write;
use tagged::tagged::Tagged;
use track::track::Track;
use valves::bench::Bench;

// Stays: no `Display`, since a setting is told by its plant.
pub trait Describe {
    fn describe(&self, heap: Global, setting: u32) -> Result<String, AllocError>;
}

impl Describe for Bench {
    fn describe(&self, heap: Global, setting: u32) -> Result<String, AllocError> {
        let mut text = String::from_str(heap, "valves at")?;
        for valve in 0..12u8 {
            if let Some(position) = self.position(setting, valve) {
                write!(text, " {position}")?;
            }
        }
        Ok(text)
    }
}

impl Describe for Track {
    fn describe(&self, heap: Global, setting: u32) -> Result<String, AllocError> {
        format!(in heap; "station {setting}")
    }
}

impl<F: Plant + Describe, S: Plant + Describe> Describe for Pair<F, S> {
    fn describe(&self, heap: Global, setting: u32) -> Result<String, AllocError> {
        match self.split(setting) {
            Some((one, other)) => {
                let first = self.first().describe(heap, one)?;
                let second = self.second().describe(heap, other)?;
                format!(in heap; "{first}, {second}")
            }
            None => String::from_str(heap, "no such setting"),
        }
    }
}

impl<P: Plant + Describe> Describe for Tagged<P> {
    fn describe(&self, heap: Global, setting: u32) -> Result<String, AllocError> {
        self.below().describe(heap, setting)
    }
}
