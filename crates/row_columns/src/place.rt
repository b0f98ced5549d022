/// The number of a row in each table of a tuple; `u32::MAX`, which no row has, where the side is missing.
#[derive(Clone, Copy)]
pub struct Place {
    pub rows: [u32; 3],
}
