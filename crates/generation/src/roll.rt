use conventions::Adjusted;
use dates::Day;

/// What is generated of a roll: the adjusted day, and the fixing if the roll has one.
#[derive(Clone, Copy, PartialEq, Debug)]
pub struct Roll {
    pub adjusted: Adjusted,
    pub fixing: Option<Day>,
}
