/// A kind of error that a run itself throws (15.11.6).
#[derive(Clone, Copy, PartialEq, Eq, Debug)]
pub enum ErrorKind {
    TypeError,
    ReferenceError,
    RangeError,
}
