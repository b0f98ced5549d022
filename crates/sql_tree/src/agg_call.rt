/// The aggregates of one argument.
#[derive(Clone, Copy, Debug, PartialEq, Eq)]
pub enum AggCall {
    Count,
    Sum,
    Min,
    Max,
}
