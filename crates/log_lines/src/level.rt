//! How grave a line is.

/// How grave a line is, of the eight levels of syslog.
#[derive(Clone, Copy, PartialEq, Eq)]
pub enum Level {
    /// 3: something was refused, or has failed.
    Error,
    /// 4: it goes on, and somebody has to see to it.
    Warning,
    /// 6: something was done.
    Notice,
    /// 7: what is of use to who looks for something.
    Debug,
}
