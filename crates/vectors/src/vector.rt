// A vector: a plant, a leg, and what is to be answered. Its line has parts with a comma and a blank between them,
// and each part is a name and numbers with single blanks between them.
use anyhow::{Context, anyhow};
use legs::leg::Leg;
use std::alloc::Global;
use track::link::Link;
use valves::interlock::Interlock;

// The plant by its data: a bench where there are valves, a track where there are stations, a pair where there are both.
#[derive(Drop)]
pub struct Description {
    pub positions: Vec<u8>,
    pub interlocks: Vec<Interlock>,
    pub stations: u16,
    pub links: Vec<Link>,
    pub tags: Vec<u16>,
}

// The first leg's length, the settings that it expands and the records that it needs; the most records that a leg of
// the plan needs; the list and the count of the plan.
#[derive(Drop)]
pub struct Expected {
    pub length: Option<u16>,
    pub expanded: u64,
    pub need: usize,
    pub most: usize,
    pub list: Vec<u16>,
    pub count: u64,
}

#[derive(Drop)]
pub struct Vector {
    pub description: Description,
    pub leg: Leg,
    pub expected: Expected,
}

impl Vector {
    pub(crate) fn read(heap: Global, line: &str) -> anyhow::Result<Vector> {
        let mut description = Description::empty(heap);
        let mut leg = Leg::default();
        let mut expected = Expected::empty(heap);
        for part in line.split(", ") {
            let (name, words) = cut(part)?;
            if !description.take(name, words)?
                && !take_of_leg(&mut leg, name, words)?
                && !expected.take(name, words)?
            {
                return Err(anyhow!("a part of a vector has no such name"));
            }
        }
        Ok(Vector {
            description,
            leg,
            expected,
        })
    }
}

// Stays: `take` answers whether the part was one of these, since the three are asked one after another.
impl Description {
    fn empty(heap: Global) -> Description {
        Description {
            positions: Vec::new(heap),
            interlocks: Vec::new(heap),
            stations: 0,
            links: Vec::new(heap),
            tags: Vec::new(heap),
        }
    }

    // Takes the part in if it is one of the plant's.
    fn take(&mut self, name: &str, words: &str) -> anyhow::Result<bool> {
        match name {
            "valves" => {
                for word in words.split(' ') {
                    self.positions.push(word.parse::<u8>()?)?;
                }
            }
            "lock" => self.interlocks.push(interlock(words)?)?,
            "stations" => self.stations = words.parse::<u16>()?,
            "link" => self.links.push(link(words)?)?,
            "tag" => self.tags.push(words.parse::<u16>()?)?,
            _ => return Ok(false),
        }
        Ok(true)
    }
}

// Takes the part in if it is one of the leg's.
fn take_of_leg(leg: &mut Leg, name: &str, words: &str) -> anyhow::Result<bool> {
    match name {
        "from" => leg.start = words.parse::<u32>()?,
        "to" => leg.target = words.parse::<u32>()?,
        "within" => leg.bound = words.parse::<u16>()?,
        _ => return Ok(false),
    }
    Ok(true)
}

impl Expected {
    fn empty(heap: Global) -> Expected {
        Expected {
            length: None,
            expanded: 0,
            need: 0,
            most: 0,
            list: Vec::new(heap),
            count: 0,
        }
    }

    // Takes the part in if it is one of the answer's.
    fn take(&mut self, name: &str, words: &str) -> anyhow::Result<bool> {
        match name {
            "length" => self.length = Some(words.parse::<u16>()?),
            "expanded" => self.expanded = words.parse::<u64>()?,
            "need" => self.need = words.parse::<usize>()?,
            "most" => self.most = words.parse::<usize>()?,
            "list" => {
                for word in words.split(' ') {
                    self.list.push(word.parse::<u16>()?)?;
                }
            }
            "count" => self.count = words.parse::<u64>()?,
            _ => return Ok(false),
        }
        Ok(true)
    }
}

// The first word, and the rest behind the blank.
fn cut(words: &str) -> anyhow::Result<(&str, &str)> {
    words
        .split_once(' ')
        .context("a part of a vector has too few words")
}

fn interlock(words: &str) -> anyhow::Result<Interlock> {
    let (valve, rest) = cut(words)?;
    let (position, rest) = cut(rest)?;
    let (other, stands) = cut(rest)?;
    Ok(Interlock {
        valve: valve.parse::<u8>()?,
        position: position.parse::<u8>()?,
        other: other.parse::<u8>()?,
        stands: stands.parse::<u8>()?,
    })
}

fn link(words: &str) -> anyhow::Result<Link> {
    let (one, other) = cut(words)?;
    Ok(Link {
        one: one.parse::<u16>()?,
        other: other.parse::<u16>()?,
    })
}
