ghost use Rattle.std.specs.Prelude.{◌≡◌};
ghost use Rattle.faults.specs.Refusals.{calendar_refusal, generation_refusal, text_refusal, sheet_refusal, refusal};
ghost use Rattle.faults.specs.declared.origins.Fault.TheVariants.{Calendar, Generation, Text, Sheet};

use crate::origins::{CalendarFault, Fault, GenerationFault, SheetFault, TextFault};

// Five methods and no trait: nothing is generic in a refusal's origin, and each body is a table of its own.
impl CalendarFault {
    pub fn number(self) -> u8
        ensures { result ≡ (calendar_refusal self).number }
    {
        match self {
            CalendarFault::DayAbove(_) => 10,
            CalendarFault::NotEntered(_) => 13,
            CalendarFault::EntriesFull => 14,
            CalendarFault::RuleFull => 41,
            CalendarFault::BadEntry | CalendarFault::NotRising(_) => 42,
        }
    }
}

impl GenerationFault {
    pub fn number(self) -> u8
        ensures { result ≡ (generation_refusal self).number }
    {
        match self {
            GenerationFault::NoGoodDay(_) => 20,
            GenerationFault::NoFixing(_) => 21,
            GenerationFault::NotTried => 45,
        }
    }
}

impl TextFault {
    pub fn number(self) -> u8
        ensures { result ≡ (text_refusal self).number }
    {
        match self {
            TextFault::BadLine(_) => 50,
            TextFault::TooLong => 51,
        }
    }
}

impl SheetFault {
    pub fn number(self) -> u8
        ensures { result ≡ (sheet_refusal self).number }
    {
        match self {
            SheetFault::OutOfRange(_) => 1,
            SheetFault::BadDays(_) => 2,
            SheetFault::Live(_) => 3,
            SheetFault::NotLive(_) => 4,
            SheetFault::ManyRolls(_) => 5,
            SheetFault::SheetFull(_) => 6,
            SheetFault::NoPayment(_) => 7,
            SheetFault::SameDay => 11,
            SheetFault::WrongState(_) => 12,
            SheetFault::ShortList => 30,
        }
    }
}

impl Fault {
    pub fn number(self) -> u8
        ensures { result ≡ (refusal self).number }
    {
        match self {
            Fault::Calendar(fault) => fault.number(),
            Fault::Generation(fault) => fault.number(),
            Fault::Text(fault) => fault.number(),
            Fault::Sheet(fault) => fault.number(),
        }
    }
}

// One `From` an origin, by hand: a caller's proof reads `from_gives`, and the derive of thiserror states none.
impl From<CalendarFault> for Fault {
    ghost from_gives = { λ e r. r ≡ Calendar e };

    fn from(fault: CalendarFault) -> Fault {
        Fault::Calendar(fault)
    }
}

impl From<GenerationFault> for Fault {
    ghost from_gives = { λ e r. r ≡ Generation e };

    fn from(fault: GenerationFault) -> Fault {
        Fault::Generation(fault)
    }
}

impl From<TextFault> for Fault {
    ghost from_gives = { λ e r. r ≡ Text e };

    fn from(fault: TextFault) -> Fault {
        Fault::Text(fault)
    }
}

impl From<SheetFault> for Fault {
    ghost from_gives = { λ e r. r ≡ Sheet e };

    fn from(fault: SheetFault) -> Fault {
        Fault::Sheet(fault)
    }
}
