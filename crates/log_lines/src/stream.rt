//! Whether lines go to systemd's journal.
ghost use Rattle.std.specs.Prelude.{◌≡◌, Decides, IfOk, string_bytes};
ghost use Rattle.log_lines.specs.Streams.{socket_text};

use std::alloc::{AllocError, Global};

/// How the system names a socket of this inode.
fn socket_text(alloc: Global, inode: &str) -> Result<String, AllocError>
    ensures { IfOk result (λ text. string_bytes text ≡ socket_text inode.now) }
{
    let mut text = String::new(alloc);
    write!(text, "socket:[{inode}]")?;
    Ok(text)
}

/// Whether both are the same text.
fn is_text(one: &str, other: &str) -> bool
    ensures { Decides result (one.now ≡ other.now) }
{
    one == other
}

/// Whether the link is that of a socket of this inode.
fn is_socket(alloc: Global, link: &str, inode: &str) -> Result<bool, AllocError>
    ensures { IfOk result (λ is. Decides is (link.now ≡ socket_text inode.now)) }
{
    let text = socket_text(alloc, inode)?;
    Ok(is_text(link, text.as_str()))
}

/// Whether `JOURNAL_STREAM` says that the open stream with this link in `/proc` is the journal's: it has the numbers of its
/// device and its inode, with a colon between. Refused for want of memory alone.
pub fn is_stream(alloc: Global, told: &str, link: &str) -> Result<bool, AllocError> {
    match told.split_once(':') {
        Some((_, inode)) => is_socket(alloc, link, inode),
        None => Ok(false),
    }
}
