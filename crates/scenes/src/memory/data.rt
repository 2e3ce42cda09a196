//! What both filters return from calls with their data.
use crate::scripted_filters::{Pair, Refused, THE_TEST, named, plain_from, shared_from};
use fastbloom::{FilterData, FilterError};
use std::alloc::Global;

/// The data of a JSON text, or `Memory` where it isn't read.
pub(crate) fn data_of(alloc: Global, text: &str) -> Result<FilterData, FilterError> {
    match serde_json::from_str(alloc, text) {
        Ok(form) => Ok(form),
        Err(_error) => Err(FilterError::Memory),
    }
}

/// Whether both filters give the data of a JSON text.
pub(crate) fn has_data(alloc: Global, pair: &Pair, text: &str) -> bool {
    let form = data_of(alloc, text);
    form.is_ok() & (pair.plain.to_data(alloc) == form) & (pair.shared.to_data(alloc) == form)
}

// The data after a way through JSON text.
fn through_text(alloc: Global, form: &FilterData) -> Result<FilterData, FilterError> {
    match serde_json::to_string(alloc, form) {
        Ok(text) => data_of(alloc, text.as_str()),
        Err(_error) => Err(FilterError::Memory),
    }
}

// Data that were given, after a way through JSON text if that is said.
fn sent(
    alloc: Global,
    given: Result<FilterData, Refused>,
    by_text: bool,
) -> Result<FilterData, Refused> {
    let form = given?;
    if by_text {
        return named(THE_TEST, through_text(alloc, &form));
    }
    Ok(form)
}

/// Each filter goes on as it is made of the other's data, by JSON text if that is said. They are
/// alike then where these were.
pub(crate) fn cross(alloc: Global, pair: &mut Pair, by_text: bool) -> Result<bool, Refused> {
    let form = named("to_data", pair.plain.to_data(alloc));
    let shared = shared_from(alloc, sent(alloc, form, by_text))?;
    let form = named("shared to_data", pair.shared.to_data(alloc));
    match plain_from(sent(alloc, form, by_text)) {
        Ok(plain) => {
            *pair = Pair { plain, shared };
            Ok(true)
        }
        Err(refused) => Err(refused),
    }
}
