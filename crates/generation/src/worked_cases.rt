ghost use Rattle.generation.specs.WorkedCases.{WorkedCases};

/// Examples worked out by hand hold of the definitions.
pub fn worked_cases_hold() -> bool
    ensures { WorkedCases }
{
    true
}
