// The name of a day.

#[derive(Clone, Copy, Debug, PartialEq, Eq, PartialOrd, Ord)]
pub struct DayName {
    pub machine: u8,
    pub number: u32,
}
