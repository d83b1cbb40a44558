ghost use Rattle.std.specs.Prelude.{◌≡◌};
ghost use Rattle.mgmt_agent.specs.Statuses.{function_of};
ghost use Rattle.mgmt_agent.specs.Decisions.{wants_eui};

/// The functions of a management ORB that this target knows.
#[derive(Clone, Copy)]
pub enum Function {
    Login,
    Query,
    Reconnect,
    Logout,
    Abort,
    AbortSet,
    UnitReset,
    TargetReset,
}

impl Function {
    /// The function with a number.
    pub(crate) fn read(number: u8) -> Option<Function>
        ensures { result ≡ function_of number }
    {
        match number {
            0x0 => Some(Function::Login),
            0x1 => Some(Function::Query),
            0x3 => Some(Function::Reconnect),
            0x7 => Some(Function::Logout),
            0xb => Some(Function::Abort),
            0xc => Some(Function::AbortSet),
            0xe => Some(Function::UnitReset),
            0xf => Some(Function::TargetReset),
            _ => None,
        }
    }

    /// Whether the function reads the EUI-64 of the source: login and reconnect do.
    pub(crate) fn wants_eui(self) -> bool
        ensures { result ≡ wants_eui self }
    {
        matches!(self, Function::Login | Function::Reconnect)
    }
}
