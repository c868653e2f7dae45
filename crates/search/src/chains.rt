// Looking up by chains: the places whose settings fall into one bucket are linked from the newest to the oldest, in
// memory that the caller lends. Whatever that memory holds at first is tolerated: a link that does not lead down, or
// leads out of its bucket, is not followed.
ghost use Rattle.std.specs.Prelude.{◌≡◌, ℕ, ◌<◌, List, [], ◌∷◌, ◌++◌, map, length, drop, slice_index};
ghost use Rattle.search.specs.Chained.{bucket_of, Follows};

use crate::lookup::{Lookup, stands};
use crate::record::Record;

// A link for each place stands in front, and behind them a head for each bucket; no heads where the chains are given up.
// Stays: numbers beside the memory, since it is one slice of the caller's: links in front, and heads as far as it goes.
#[derive(Drop)]
pub(crate) struct Chains<'a> {
    pub(crate) memory: &'a mut [u32],
    pub(crate) links: u32,
    pub(crate) heads: u32,
}

// The most links, and the most heads.
const MOST: usize = u32::MAX as usize;

// The factor that spreads settings which lie close together over all numbers of 32 bits.
const SPREAD: u32 = 2654435769;

// The bucket of a setting: the part of all numbers into which the spread setting falls.
fn bucket(heads: u32, setting: u32) -> u32
    ensures is { result ≡ bucket_of heads setting }
    ensures within { 0 < heads → result < heads }
{
    let spread = setting.wrapping_mul(SPREAD);
    ((spread as u64 * heads as u64) >> 32) as u32
}

impl<'a> Chains<'a> {
    // Chains for so many records: a link for each, and a head in every number that is left.
    pub(crate) fn over(memory: &'a mut [u32], records: usize) -> Chains<'a>
        ensures { Follows result [] }
    {
        let links = records.min(MOST);
        let heads = memory.len().saturating_sub(links).min(MOST);
        Chains {
            memory,
            links: links as u32,
            heads: heads as u32,
        }
    }

    // Puts a place before the others of its setting's bucket. The chains are given up where the memory is too short.
    fn link(&mut self, place: usize, setting: u32)
        ensures { (ss : List ℕ) → length ss ≡ place → Follows self.old ss → Follows self.new (ss ++ (setting ∷ [])) }
    {
        let links = self.links as usize;
        let head = links + bucket(self.heads, setting) as usize;
        if place >= links {
            self.heads = 0;
            return;
        }
        if head >= self.memory.len() {
            self.heads = 0;
            return;
        }
        let next = self.memory[head];
        self.memory[place] = next;
        self.memory[head] = place as u32;
    }

    // The place that the link of a place leads to.
    fn linked(&self, place: usize) -> usize
        requires { place < length self.now.memory.now }
        ensures { result ≡ slice_index self.now.memory.now place }
    {
        self.memory[place] as usize
    }

    // Enters these records and no others, from the first place on.
    fn link_again<R: Record>(&mut self, records: &[R])
        ensures { (ss : List ℕ) → Follows self.old ss → Follows self.new (map R.Record.tells records.now) }
    {
        for (place, record) in records.iter().enumerate() {
            self.link(place, record.setting());
        }
    }
}

impl<'a, R: Record> Lookup<R> for Chains<'a> {
    ghost follows = { Follows };

    fn meets(&self, records: &[R], setting: u32) -> bool {
        if self.heads == 0 {
            return stands(records, setting);
        }
        let here = bucket(self.heads, setting);
        let head = self.links as usize + here as usize;
        let mut above = records.len();
        let mut place = self.memory[head] as usize;
        // Stays: places are linked by their numbers, since the memory is the caller's.
        while place < above {
            let record = records[place];
            let told = record.setting();
            if told == setting {
                return true;
            }
            if bucket(self.heads, told) != here {
                return false;
            }
            above = place;
            place = self.linked(place);
        }
        false
    }

    fn enter(&mut self, place: usize, setting: u32) {
        self.link(place, setting);
    }

    fn lower(&mut self, records: &[R], gone: usize) {
        self.link_again(&records[gone..]);
    }
}
