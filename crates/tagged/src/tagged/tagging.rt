// Makes a tagged plant, and tags and untags its operations.
ghost use Rattle.std.specs.Prelude.{◌≡◌, ◌<◌};
ghost use Rattle.tagged.specs.Tags.{bears, untagged, Covered, Tags, Untags};
ghost use Rattle.tagged.specs.Tagged.{tags_of, below_of};

use crate::tagged::Tagged;
use plant::plant::Plant;
use plant::refusal::Refusal;

impl<P: Plant> Tagged<P> {
    // The plant with no operation tagged.
    pub fn new(below: P) -> Tagged<P>
        ensures none { tags_of result ≡ untagged }
        ensures same { below_of result ≡ below }
    {
        Tagged {
            below,
            tags: [false; 2048],
        }
    }

    // The plant below.
    pub fn below(&self) -> &P
        ensures { result.now ≡ below_of self.now }
    {
        &self.below
    }

    // Whether the operation or its reverse bears a tag. Out of range, false.
    pub fn is_tagged(&self, operation: u16) -> bool
        ensures { result ≡ bears (P.meaning (below_of self.now)) (tags_of self.now) operation }
    {
        if operation >= self.below.operations() {
            return false;
        }
        let reverse = self.below.reverse(operation);
        self.tags[operation as usize] | self.tags[reverse as usize]
    }

    // Tags the operation and its reverse. Refused where there is no such operation, then where it is tagged already.
    pub fn tag(&mut self, operation: u16) -> Result<(), Refusal>
        ensures tagged { Tags (P.meaning (below_of self.old)) (tags_of self.old) operation (tags_of self.new) result }
        ensures same { below_of self.new ≡ below_of self.old }
    {
        if operation >= self.below.operations() {
            return Err(Refusal::NoSuchOperation);
        }
        if self.is_tagged(operation) {
            return Err(Refusal::TaggedAlready);
        }
        self.put(operation, true);
        Ok(())
    }

    // Frees the operation and its reverse. Refused where there is no such operation, then where it is not tagged.
    pub fn untag(&mut self, operation: u16) -> Result<(), Refusal>
        ensures freed { Untags (P.meaning (below_of self.old)) (tags_of self.old) operation (tags_of self.new) result }
        ensures same { below_of self.new ≡ below_of self.old }
    {
        if operation >= self.below.operations() {
            return Err(Refusal::NoSuchOperation);
        }
        if !self.is_tagged(operation) {
            return Err(Refusal::Untagged);
        }
        self.put(operation, false);
        Ok(())
    }

    // Tags the operation and its reverse, or frees both.
    fn put(&mut self, operation: u16, on: bool)
        requires { operation < (P.meaning (below_of self.old)).operations }
        ensures covered { Covered (P.meaning (below_of self.old)) (tags_of self.old) operation on (tags_of self.new) }
        ensures same { below_of self.new ≡ below_of self.old }
    {
        let reverse = self.below.reverse(operation);
        self.tags[operation as usize] = on;
        self.tags[reverse as usize] = on;
    }
}
