/// The ways in which a table is joined to those before it.
#[derive(Clone, Copy, Debug, PartialEq, Eq)]
pub enum JoinWay {
    Comma,
    Inner,
    Left,
}
