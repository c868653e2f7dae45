// What stands in a place of operations.

// Whether the list stands at the front of the place, with zero behind it.
pub(crate) fn is_written(place: &[u16], list: &[u16]) -> bool {
    place
        .split_at_checked(list.len())
        .is_some_and(|(front, behind)| front == list && is_all(behind, 0))
}

// Whether every number of the place is this one.
pub(crate) fn is_all(place: &[u16], number: u16) -> bool {
    place.iter().all(|operation| *operation == number)
}
