ghost use Rattle.std.specs.Prelude.{◌≡◌};
ghost use Rattle.bonds.specs.TermsOf.{stub_answer};

/// Where the period that does not fit lies, and whether it is joined to its neighbour.
#[derive(Clone, Copy)]
pub enum Stub {
    ShortFirst,
    LongFirst,
    ShortLast,
    LongLast,
}

/// A number that is no stub's code.
#[derive(Clone, Copy, PartialEq, Debug)]
pub struct UnknownStub(pub u64);

impl TryFrom<u64> for Stub {
    type Error = UnknownStub;

    ghost try_from_gives = { λ code result. result ≡ stub_answer code };

    fn try_from(code: u64) -> Result<Stub, UnknownStub> {
        match code {
            0 => Ok(Stub::ShortFirst),
            1 => Ok(Stub::LongFirst),
            2 => Ok(Stub::ShortLast),
            3 => Ok(Stub::LongLast),
            _ => Err(UnknownStub(code)),
        }
    }
}
