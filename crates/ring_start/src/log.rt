//! Standard error, line by line.
use log_lines::{Level, LogForm, Prefix};
use std::io::Write;
use std::time::Clock;

/// Standard error, of which each line begins as its form says.
#[derive(Drop)]
pub struct Log<'a, C: Clock, E: Write> {
    rt: &'a C,
    err: &'a mut E,
    form: LogForm,
}

impl<'a, C: Clock, E: Write> Log<'a, C, E> {
    /// Of this form.
    pub fn new(rt: &'a C, err: &'a mut E, form: LogForm) -> Log<'a, C, E> {
        Log { rt, err, form }
    }

    /// What a line of this level is written to. What stands before it is written then.
    pub fn line(&mut self, level: Level) -> &mut E {
        if self.form != LogForm::Plain {
            let seconds = match self.rt.since_1970() {
                Ok(now) => now.as_secs(),
                Err(_) => 0,
            };
            let prefix = Prefix {
                form: self.form,
                level,
                seconds,
            };
            let _ = write!(self.err, "{prefix}");
        }
        self.err
    }

    /// Whether notices are told too: what is done, with nothing refused and nothing failed.
    pub fn has_notices(&self) -> bool {
        self.form != LogForm::Plain
    }
}
