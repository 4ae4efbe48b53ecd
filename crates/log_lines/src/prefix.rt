//! What a line begins with, by its form and its level.
ghost use Rattle.std.specs.Prelude.{◌≡◌, ◌*◌, pos, IfSome};
ghost use Rattle.log_lines.specs.Forms.{mark_of};

use crate::{Level, LogForm};
use jiff::Timestamp;
use std::fmt;

/// What stands before a line of this form and level that is told so many seconds behind the beginning of 1970 in UTC. The
/// time is as RFC 3339 spells it, `2026-11-29T09:41:39Z`; where it is past the year 9999 it is left out.
#[derive(Clone, Copy)]
pub struct Prefix {
    pub form: LogForm,
    pub level: Level,
    pub seconds: u64,
}

/// What tells the level.
fn mark(form: LogForm, level: Level) -> &'static str
    ensures { result.now ≡ mark_of form level }
{
    match (form, level) {
        (LogForm::Plain, _) => "",
        (LogForm::Journal, Level::Error) => "<3>",
        (LogForm::Journal, Level::Warning) => "<4>",
        (LogForm::Journal, Level::Notice) => "<6>",
        (LogForm::Journal, Level::Debug) => "<7>",
        (LogForm::Time, Level::Error) => "error ",
        (LogForm::Time, Level::Warning) => "warning ",
        (LogForm::Time, Level::Notice) => "notice ",
        (LogForm::Time, Level::Debug) => "debug ",
    }
}

/// The moment so many seconds behind the beginning of 1970, where there is such a one.
fn moment(seconds: u64) -> Option<Timestamp>
    ensures { IfSome result (λ moment. moment.nanosecond ≡ pos (seconds * 1_000_000_000)) }
{
    let Ok(seconds) = i64::try_from(seconds) else {
        return None;
    };
    match Timestamp::from_second(seconds) {
        Ok(moment) => Some(moment),
        Err(_) => None,
    }
}

impl fmt::Display for Prefix {
    fn fmt<W: fmt::Write>(&self, f: &mut fmt::Formatter<W>) -> fmt::Result {
        if self.form == LogForm::Time {
            if let Some(moment) = moment(self.seconds) {
                write!(f, "{moment} ")?;
            }
        }
        f.write_str(mark(self.form, self.level))
    }
}
