use cov_model::Slice;
use std::alloc::Global;
use value_text::NoMemory;

// A slice, and the numbers of the given rows that are of it, rising.
#[derive(Drop)]
pub(crate) struct SliceRows {
    pub(crate) slice: Slice,
    pub(crate) numbers: Vec<u32>,
}

impl SliceRows {
    // A slice without rows.
    fn new(alloc: Global, slice: Slice) -> SliceRows {
        SliceRows {
            slice,
            numbers: Vec::new(alloc),
        }
    }
}

// The slices of rows, in the order of their first rows.
pub(crate) fn by_slice(alloc: Global, slices: &[Slice]) -> Result<Vec<SliceRows>, NoMemory> {
    let mut groups: Vec<SliceRows> = Vec::new(alloc);
    for (number, slice) in slices.iter().enumerate() {
        let at = match groups.iter().position(|group| group.slice == *slice) {
            Some(at) => at,
            None => {
                groups.push(SliceRows::new(alloc, *slice))?;
                groups.len().saturating_sub(1)
            }
        };
        if let Some(group) = groups.get_mut(at) {
            group.numbers.push(number.min(u32::MAX as usize) as u32)?;
        }
    }
    Ok(groups)
}
