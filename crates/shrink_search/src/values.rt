use cov_model::{Param, ParamNo, Slice, TestModel, ValueNo};
use packed_lists::PackedLists;
use std::alloc::Global;
use value_text::NoMemory;

/// A number of a value among those of its parameter in a slice, counted from 0.
pub(crate) type Digit = u16;

// What stands for no digit.
const NO_DIGIT: Digit = Digit::MAX;

// The values of the parameters in a slice, and the digits that stand for them.
#[derive(Drop)]
pub(crate) struct SliceValues {
    values: PackedLists,
    digits: PackedLists,
}

// Whether a slice has a value of a parameter.
fn is_in(slice: Slice, p: ParamNo, v: ValueNo, negative: bool) -> bool {
    match slice {
        Slice::Negative(q, w) if p == q => v == w,
        _ => !negative,
    }
}

impl SliceValues {
    // The values of a model in a slice.
    pub(crate) fn new(
        alloc: Global,
        model: &TestModel,
        slice: Slice,
    ) -> Result<SliceValues, NoMemory> {
        let mut all = SliceValues {
            values: PackedLists::new(alloc),
            digits: PackedLists::new(alloc),
        };
        let mut p: ParamNo = 0;
        for param in model.params().as_slice() {
            all.push(alloc, param, slice, p)?;
            p = p.saturating_add(1);
        }
        Ok(all)
    }

    // Puts the values of a parameter behind those of the others.
    fn push(
        &mut self,
        alloc: Global,
        param: &Param,
        slice: Slice,
        p: ParamNo,
    ) -> Result<(), NoMemory> {
        let mut values = Vec::new(alloc);
        let mut digits = Vec::new(alloc);
        let mut v: ValueNo = 0;
        let mut digit: Digit = 0;
        for value in param.values.as_slice() {
            if is_in(slice, p, v, value.negative) {
                values.push(v)?;
                digits.push(digit)?;
                digit = digit.saturating_add(1);
            } else {
                digits.push(NO_DIGIT)?;
            }
            v = v.saturating_add(1);
        }
        self.values.push(values.as_slice())?;
        self.digits.push(digits.as_slice())
    }

    // How many values a parameter has.
    pub(crate) fn count(&self, p: ParamNo) -> u32 {
        if (p as usize) < self.values.len() {
            self.values.list(p as usize).len().min(u32::MAX as usize) as u32
        } else {
            0
        }
    }

    // The value that a digit stands for.
    pub(crate) fn value(&self, p: ParamNo, digit: Digit) -> Option<ValueNo> {
        if (p as usize) < self.values.len() {
            self.values.list(p as usize).get(digit as usize).copied()
        } else {
            None
        }
    }

    // The digit that stands for a value.
    pub(crate) fn digit(&self, p: ParamNo, v: ValueNo) -> Option<Digit> {
        if (p as usize) >= self.digits.len() {
            return None;
        }
        match self.digits.list(p as usize).get(v as usize) {
            Some(&digit) if digit != NO_DIGIT => Some(digit),
            _ => None,
        }
    }
}
