/// What a lock begins with. The table's rule reads it.
pub struct Start<T> {
    pub passes: u32,
    pub value: T,
}
