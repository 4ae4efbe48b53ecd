//! Why settings are refused.
use std::fmt;
use thiserror::Error;

/// A key of the settings.
#[derive(Clone, Copy, Debug, PartialEq, Eq)]
pub enum Setting {
    /// How many nodes the ring has.
    Nodes,
    /// The folder of the nodes' files.
    Dir,
    /// The port of the first node.
    Port,
    /// How many bytes of inputs each node takes.
    Capacity,
}

impl Setting {
    ghost use Rattle.std.specs.Prelude.{◌≡◌};
    ghost use Rattle.ring_service.specs.Settings.{setting_text};

    /// Its name.
    pub fn name(&self) -> &'static str
        ensures { result.now ≡ setting_text self.now }
    {
        match self {
            Setting::Nodes => "nodes",
            Setting::Dir => "dir",
            Setting::Port => "port",
            Setting::Capacity => "capacity",
        }
    }
}

impl fmt::Display for Setting {
    ghost use Rattle.std.specs.Prelude.{Some};
    ghost use Rattle.ring_service.specs.Settings.{setting_text};

    ghost output = { λ setting. Some (setting_text setting) };

    fn fmt<W: fmt::Write>(&self, f: &mut fmt::Formatter<W>) -> fmt::Result {
        f.write_str(self.name())
    }
}

/// Why settings are refused.
#[derive(Clone, Copy, Debug, PartialEq, Eq, Error)]
pub enum StartFault {
    /// The text is no TOML document.
    #[error("settings are not TOML")]
    Toml,
    /// There is no such key.
    #[error("setting {0} is missing")]
    Missing(Setting),
    /// The key's value is of another type, or out of its range.
    #[error("setting {0} is wrong")]
    Wrong(Setting),
    /// There is another key.
    #[error("a setting is unknown")]
    Unknown,
    /// A growth was refused.
    #[error("out of memory")]
    Memory,
}
