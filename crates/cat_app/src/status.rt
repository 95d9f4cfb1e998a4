// How a call of the program ended.
ghost use Rattle.std.specs.Prelude.{◌≡◌};
ghost use Rattle.cat_app.specs.Status.{code_of};

/// How a call ended. `Conflict`, `NoValue` and `Fault` are outcomes of a run, `Found` and `Unsettled`
/// verdicts of an audit, or say of definitions that one never decides, or that it isn't known; from
/// `Source` on come refusals, but for these two.
#[derive(Clone, Copy, Debug, PartialEq, Eq)]
pub enum Status {
    Fine,
    Conflict,
    NoValue,
    Fault,
    Source,
    Input,
    Found,
    Unsettled,
    Certificate,
    Usage,
    Missing,
    ReadFault,
    WriteFault,
    Memory,
    TooLarge,
    /// A listing that is refused.
    Listing,
}

impl Status {
    /// The exit status of the program.
    pub fn code(self) -> u8
        ensures { result ≡ code_of self }
    {
        match self {
            Status::Fine => 0,
            Status::Conflict => 1,
            Status::NoValue => 2,
            Status::Fault => 3,
            Status::Source => 4,
            Status::Input => 5,
            Status::Found => 6,
            Status::Unsettled => 7,
            Status::Certificate => 8,
            Status::Usage => 9,
            Status::Missing => 10,
            Status::ReadFault => 11,
            Status::WriteFault => 12,
            Status::Memory => 13,
            Status::TooLarge => 14,
            Status::Listing => 15,
        }
    }
}
