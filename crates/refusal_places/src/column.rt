use crate::tokens::goes_on;

/// The column of a place of a line: one more than the characters before it.
pub(crate) fn column_of(before: &[u8]) -> u32 {
    let mut column: u32 = 1;
    for byte in before {
        if !goes_on(*byte) {
            column = column.saturating_add(1);
        }
    }
    column
}
