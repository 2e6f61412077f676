//! By whom a monitor call is made.

ghost use Rattle.std.specs.Prelude.{◌≡◌};
ghost use Rattle.core_context.specs.Origins.{is_by_line, exit_value};

/// By whom a monitor call is made.
#[derive(Clone, Copy, Debug, PartialEq, Eq)]
pub enum Origin {
    /// A line of the script.
    Line,
    /// Guest code, by ECALL.
    Guest,
    /// The machine itself, which leaves an enclave at a trap with this value, or at a tick, with 0.
    Machine { value: u64 },
}

impl Origin {
    /// Whether a line of the script makes the call.
    pub fn is_line(self) -> bool
        ensures { result ≡ is_by_line self }
    {
        match self {
            Origin::Line => true,
            Origin::Guest | Origin::Machine { .. } => false,
        }
    }

    /// The value that goes with the cause of an exit that the machine makes.
    pub fn exit_value(self) -> u64
        ensures { result ≡ exit_value self }
    {
        match self {
            Origin::Line | Origin::Guest => 0,
            Origin::Machine { value } => value,
        }
    }
}
