/// One turn of a caller: its how manieth it was, from 0.
#[derive(Clone, Copy)]
pub struct Entry {
    pub caller: u32,
    pub number: u32,
}
