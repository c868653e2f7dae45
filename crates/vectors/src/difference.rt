// What is not as a vector expects it.
use std::fmt;

#[derive(Clone, Copy)]
pub enum Difference {
    Tag,
    Refused,
    Length,
    Expanded,
    Need,
    List,
    Count,
    Most,
}

impl fmt::Display for Difference {
    fn fmt<W: fmt::Write>(&self, f: &mut fmt::Formatter<W>) -> fmt::Result {
        f.write_str(match self {
            Difference::Tag => "a tag is refused",
            Difference::Refused => "a leg is refused where it is not to be",
            Difference::Length => "the length differs",
            Difference::Expanded => "the settings expanded differ",
            Difference::Need => "the measure is not overfull with one record fewer",
            Difference::List => "the list differs",
            Difference::Count => "the count differs",
            Difference::Most => "the plan is not overfull with one record fewer",
        })
    }
}
