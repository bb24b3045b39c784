//! Tables of names.

/// The value of the row with this name, of rows in the order of their names.
pub(crate) fn row_of<T: Copy>(rows: &[(&str, T)], name: &str) -> Option<T> {
    let at = rows.binary_search_by(|row| row.0.cmp(name)).ok()?;
    Some(rows[at].1)
}
