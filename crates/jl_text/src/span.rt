/// A part of a source: its UTF-16 units from the place `from` up to the one before `to`.
#[derive(Clone, Copy, PartialEq, Eq, Debug)]
pub struct Span {
    pub from: u32,
    pub to: u32,
}
