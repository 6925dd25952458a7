use lin_rows::Row;

/// Rows that hold together.
#[derive(Drop)]
pub struct Conj {
    /// Over the frame, the columns that are written, and the helpers.
    pub rows: Vec<Row>,
    /// How many helper columns the rows have.
    pub helpers: u32,
}
