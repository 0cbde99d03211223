// What is reported to the caller of a run when it has ended.
ghost use Rattle.std.specs.Prelude.{◌≡◌};
ghost use Rattle.rk_play.specs.Reports.{refused_report, report_of as report_by};

use rk_types::Status;

/// How a run has ended: its status, and beside `Refused` the code of the refusal that was written.
#[derive(Clone, Copy)]
pub struct Report {
    /// How it ended.
    pub status: Status,
    /// The code of the refusal; none if the run was not refused, or is no run of a script.
    pub code: Option<u8>,
}

impl Report {
    /// A status without a code.
    pub fn of(status: Status) -> Report
        ensures { result ≡ report_by status }
    {
        Report { status, code: None }
    }

    /// A status that comes of a refusal with this code: the code is reported if the status is `Refused`, and so the refusal was written.
    pub(crate) fn refused(status: Status, code: u8) -> Report
        ensures { result ≡ refused_report status code }
    {
        let code = match status {
            Status::Refused => Some(code),
            _ => None,
        };
        Report { status, code }
    }
}
