ghost use Rattle.std.specs.Prelude.{◌≡◌};
ghost use Rattle.mgmt_agent.specs.Statuses.{number_of, status_of};

use login_table::LoginRefusal;

/// The sbp_status of a decision (NCITS 325-1998, status block).
#[derive(Clone, Copy)]
pub enum Status {
    NoFault,
    /// The request format is another than 0.
    RequestType,
    AccessDenied,
    /// The unit does not exist.
    LogicalUnit,
    /// The table of logins is full.
    Resources,
    /// The function is not known.
    FunctionRejected,
    /// The login ID is none of the source's.
    LoginId,
}

impl Status {
    /// Its number.
    pub(crate) fn number(self) -> u8
        ensures { result ≡ number_of self }
    {
        match self {
            Status::NoFault => 0x00,
            Status::RequestType => 0x01,
            Status::AccessDenied => 0x04,
            Status::LogicalUnit => 0x05,
            Status::Resources => 0x08,
            Status::FunctionRejected => 0x09,
            Status::LoginId => 0x0a,
        }
    }

    /// The status of a refusal of the table.
    pub(crate) fn of(refusal: LoginRefusal) -> Status
        ensures { result ≡ status_of refusal }
    {
        match refusal {
            LoginRefusal::Denied => Status::AccessDenied,
            LoginRefusal::NoRoom => Status::Resources,
            LoginRefusal::Unknown => Status::LoginId,
            LoginRefusal::OtherNode => Status::AccessDenied,
        }
    }
}
