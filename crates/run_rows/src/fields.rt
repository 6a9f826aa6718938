//! Lists that an object holds.
use anyhow::{Context, Result};
use serde_json::Value;
use std::alloc::Global;

/// A list of numbers of calls or carries; none where it isn't there.
///
/// # Errors
/// Where it has another form, or memory is wanting.
pub fn numbers_of(alloc: Global, list: Option<&Value>) -> Result<Vec<u32>> {
    let mut numbers = Vec::new(alloc);
    let Some(list) = list else {
        return Ok(numbers);
    };
    for number in list.as_array().context("numbers are no list")? {
        let number = number.as_u64().context("a number is none")?;
        numbers.push(u32::try_from(number).ok().context("a number is too great")?)?;
    }
    Ok(numbers)
}

/// The words behind the program's name.
///
/// # Errors
/// Where they are no list of texts, or memory is wanting.
pub fn words_of(alloc: Global, list: Option<&Value>) -> Result<Vec<&str>> {
    let list = list.and_then(Value::as_array).context("words are no list")?;
    let mut words = Vec::new(alloc);
    for word in list {
        words.push(word.as_str().context("a word is no text")?)?;
    }
    Ok(words)
}
