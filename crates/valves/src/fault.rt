// What is wrong with the data of a bench that is not made: the first fault in the order of the checks.
#[derive(Clone, Copy, PartialEq, Eq, Debug)]
pub enum BenchFault {
    // there are not 1 to 12 valves
    Valves,
    // there are more than 32 interlocks
    Interlocks,
    // the valve of this number has not 2 to 4 positions
    Positions(u8),
    // of the interlock in this row, from 0: its valve does not exist
    Valve(u8),
    // its position does not exist on that valve
    Position(u8),
    // its other valve does not exist
    Other(u8),
    // its two valves are one
    Same(u8),
    // the other valve has no such position
    Stands(u8),
}
