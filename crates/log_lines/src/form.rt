//! What a line begins with.
ghost use Rattle.std.specs.Prelude.{◌≡◌, IfNone, IfSome};
ghost use Rattle.log_lines.specs.Forms.{form_by, form_name};

/// What stands before a line.
#[derive(Clone, Copy, PartialEq, Eq)]
pub enum LogForm {
    /// Nothing.
    Plain,
    /// The level as systemd's journal reads it, `<3>` to `<6>`.
    Journal,
    /// The time in UTC, and the level in words.
    Time,
}

impl LogForm {
    /// The form that is said, or else the journal's where the lines go there, and no mark where they do not.
    pub fn of(said: Option<LogForm>, is_journal: bool) -> LogForm
        ensures { result ≡ form_by said is_journal }
    {
        if let Some(form) = said {
            return form;
        }
        if is_journal {
            LogForm::Journal
        } else {
            LogForm::Plain
        }
    }

    /// Its name.
    pub fn name(self) -> &'static str
        ensures { result.now ≡ form_name self }
    {
        match self {
            LogForm::Plain => "plain",
            LogForm::Journal => "journal",
            LogForm::Time => "time",
        }
    }

    /// The form of this name. `None` where no form has it.
    pub fn read(name: &str) -> Option<LogForm>
        ensures named { IfSome result (λ form. name.now ≡ form_name form) }
        ensures none { IfNone result ((form : LogForm) → name.now ≡ form_name form → ⊥) }
    {
        if name == LogForm::Plain.name() {
            Some(LogForm::Plain)
        } else if name == LogForm::Journal.name() {
            Some(LogForm::Journal)
        } else if name == LogForm::Time.name() {
            Some(LogForm::Time)
        } else {
            None
        }
    }
}
