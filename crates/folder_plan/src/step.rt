//! A step in a ring's folder.
ghost use Rattle.std.specs.Prelude.{◌≡◌};

use ring_records::NodeNo;

/// A step in a ring's folder. All but `Format` and `Sign` change names alone, and what they change outlives a stop once a `Sync`
/// stands behind them.
#[derive(Clone, Copy, PartialEq, Eq)]
pub enum FolderStep {
    /// There is no file `node-I.crj.new` then.
    Clear(NodeNo),
    /// There is a new file `node-I.crj.new` then, of its full length and formatted, and all its bytes are on the disk.
    Format(NodeNo),
    /// The file `node-I.crj.new` gets the name `node-I.crj`.
    Name(NodeNo),
    /// There is a file `ring.id` then that tells an identity, and all its bytes are on the disk.
    Sign,
    /// There is no file `ring.id` then.
    Unsign,
    /// There is `ring.made` then.
    Mark,
    /// There is no `ring.made` then.
    Unmark,
    /// There is no file `node-I.crj` then.
    Unname(NodeNo),
    /// All names that came or went before did so on the disk.
    Sync,
}

impl FolderStep {
    ghost use Rattle.folder_plan.specs.Undo.{undone, is_mark};

    /// What takes back a step that left a file of a node or of the ring's identity, or may have left one.
    pub(crate) fn undone(self) -> Option<FolderStep>
        ensures { result ≡ undone self }
    {
        match self {
            FolderStep::Format(node) => Some(FolderStep::Clear(node)),
            FolderStep::Name(node) => Some(FolderStep::Unname(node)),
            FolderStep::Sign => Some(FolderStep::Unsign),
            _ => None,
        }
    }

    /// Whether it makes `ring.made`.
    pub(crate) fn is_mark(self) -> bool
        ensures { result ≡ is_mark self }
    {
        match self {
            FolderStep::Mark => true,
            _ => false,
        }
    }
}
