//! What a reader of packed texts knows between two runs.

/// What a control byte says: the kind of its run, and for how many bytes of plain text it stands.
#[derive(Clone, Copy, Debug, PartialEq, Eq)]
pub(crate) enum Control {
    Literal(usize),
    Repeat(usize),
}

/// Which run may come next.
#[derive(Clone, Copy, Debug, PartialEq, Eq)]
pub(crate) enum Next {
    /// Any run: none came yet, or the last one is as long as its kind can be.
    Any,
    /// A repeat: the last run is a literal that could go on.
    Repeated,
    /// A run that doesn't begin with this byte: the last one is a repeat of it that could go on.
    Unlike(u8),
}

/// How far a packed text is read.
#[derive(Clone, Copy, Debug, PartialEq, Eq)]
pub(crate) struct Reader {
    /// The place in the packed text where the next run begins.
    pub at: usize,
    /// The place in the output where the plain text begins.
    pub start: usize,
    /// The place in the output from which on all bytes are bytes of literals.
    pub literals: usize,
    pub next: Next,
}
