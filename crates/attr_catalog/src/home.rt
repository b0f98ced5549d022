/// Where the values of an attribute belong.
#[derive(Clone, Copy, Debug, PartialEq, Eq)]
pub enum Home {
    Reservoir,
    Column,
}
