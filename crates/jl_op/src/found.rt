/// What there was under a name when it was looked up (8.12.1, 8.12.2).
#[derive(Clone, Copy, PartialEq, Eq, Debug)]
pub enum Found {
    /// No property.
    Absent,
    /// A data property of the object itself.
    OwnPlain,
    /// An accessor property of the object itself.
    OwnAccessor,
    /// A data property of one of its prototypes.
    ChainPlain,
    /// An accessor property of one of its prototypes.
    ChainAccessor,
}
