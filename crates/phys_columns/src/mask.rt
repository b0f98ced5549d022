/// A bit for each version of a page: bit j of word w is that of version 64 w + j of the page.
#[derive(Clone, Copy, Debug, PartialEq, Eq)]
pub struct Mask {
    pub words: [u64; 16],
}
