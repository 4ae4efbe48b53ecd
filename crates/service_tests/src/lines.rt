// What stands before the lines on standard error, and which are told of troubles that come and go.
use log_lines::{Level, LogForm, Prefix, Spell, Turn, is_stream};
use std::test::*;

/// Seconds, whether the trouble is there, and what is told then.
static LOOKS: [(u64, bool, Option<Turn>); 11] = [
    (0, false, None),
    (1, true, Some(Turn::Begins)),
    (2, true, None),
    (100, true, None),
    (101, false, Some(Turn::Ends)),
    (102, false, None),
    // a minute behind the last time that it was told to be there
    (103, true, Some(Turn::Begins)),
    (104, false, Some(Turn::Ends)),
    (162, true, None),
    (163, true, Some(Turn::Begins)),
    (164, true, None),
];

#[test]
fn troubles_that_come_and_go(rt: HostRuntime) {
    let mut spell = Spell::new();
    for row in &LOOKS {
        let (second, is_there, wanted) = *row;
        assert!(rt; spell.look(is_there, second) == wanted);
    }
}

#[test]
fn the_form_of_lines(rt: HostRuntime) -> Result<(), Fail> {
    assert!(rt; LogForm::of(None, false) == LogForm::Plain);
    assert!(rt; LogForm::of(None, true) == LogForm::Journal);
    assert!(rt; LogForm::of(Some(LogForm::Plain), true) == LogForm::Plain);
    assert!(rt; is_stream(rt.alloc(), "9:20377", "socket:[20377]")?);
    assert!(rt; !is_stream(rt.alloc(), "9:20377", "socket:[2037]")?);
    assert!(rt; !is_stream(rt.alloc(), "9:20377", "/var/log/ringd")?);
    assert!(rt; !is_stream(rt.alloc(), "20377", "socket:[20377]")?);
    assert!(rt; !is_stream(rt.alloc(), "", "socket:[]")?);
    Ok(())
}

/// Moments, and how RFC 3339 spells them.
static MOMENTS: [(u64, &str); 5] = [
    (0, "1970-01-01T00:00:00Z warning "),
    (951_782_400, "2000-02-29T00:00:00Z warning "),
    (1_795_945_299, "2026-11-29T09:41:39Z warning "),
    (4_107_542_400, "2100-03-01T00:00:00Z warning "),
    (u64::MAX, "warning "),
];

#[test]
fn moments_as_they_are_spelled(rt: HostRuntime) -> Result<(), Fail> {
    for row in &MOMENTS {
        let (seconds, text) = *row;
        let prefix = Prefix {
            form: LogForm::Time,
            level: Level::Warning,
            seconds,
        };
        let spelled = format!(in rt.alloc(); "{prefix}")?;
        assert!(&rt; spelled.as_str() == text);
    }
    Ok(())
}
