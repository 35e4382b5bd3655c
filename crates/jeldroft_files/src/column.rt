use cov_model::TestModel;
use row_text::RowsFault;
use std::alloc::Global;
use value_text::Text;

/// The name of the parameter that has no column in a table, where that is why the table is refused; `None` where it isn't,
/// and where memory for the name was refused.
pub fn missing_column(alloc: Global, model: &TestModel, fault: RowsFault) -> Option<Text> {
    let RowsFault::Missing(p) = fault else {
        return None;
    };
    let Some(param) = model.params().get(p as usize) else {
        return None;
    };
    match Text::copy(alloc, param.name.as_str()) {
        Ok(name) => Some(name),
        Err(_) => None,
    }
}
