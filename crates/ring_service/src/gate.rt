//! What a flusher tells before each commit and each checkpoint.

/// Is told of each batch and each checkpoint before it is written, and may wait. No lock is held then.
pub trait Gate {
    /// So many inputs are made durable next, 1 to 64 by a batch, any number by a checkpoint; the journal holds `first`
    /// inputs before them.
    fn before_commit(&mut self, first: u64, count: usize);
}

/// A gate that is always open.
impl Gate for () {
    fn before_commit(&mut self, _first: u64, _count: usize) {}
}
