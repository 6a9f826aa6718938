use crate::faults::CaseFault;
use fr_digest::Dig;
use hex::{FromHex, FromHexError};
use serde_json::Value;
use std::alloc::Global;

/// The field of a case.
pub fn field<'a>(case: &'a Value, name: &'static str) -> Result<&'a Value, CaseFault> {
    case.get(name).ok_or(CaseFault::NoField(name))
}

// ---- values

/// A text.
pub fn word_of(value: &Value) -> Result<&str, CaseFault> {
    value.as_str().ok_or(CaseFault::NoValue("a text"))
}

/// The bytes of a text in hexadecimal digits.
pub fn bytes_of(alloc: Global, value: &Value) -> Result<Vec<u8>, CaseFault> {
    match hex::decode(alloc, word_of(value)?) {
        Ok(bytes) => Ok(bytes),
        Err(FromHexError::OutOfMemory) => Err(CaseFault::NoMemory),
        Err(_) => Err(CaseFault::NoValue("hexadecimal digits of bytes")),
    }
}

/// The 32 bytes of a text in hexadecimal digits.
pub fn dig_of(value: &Value) -> Result<Dig, CaseFault> {
    let word = word_of(value)?;
    Dig::from_hex(word).map_err(|_| CaseFault::NoValue("hexadecimal digits of 32 bytes"))
}

/// The 32 bytes of a text in hexadecimal digits, and none of `null`.
pub fn dig_or_null(value: &Value) -> Result<Option<Dig>, CaseFault> {
    if value.is_null() {
        return Ok(None);
    }
    Ok(Some(dig_of(value)?))
}

/// Whether the value is the text of these bytes in hexadecimal digits, and `null` where there are none.
pub fn is_bytes_or_null(
    alloc: Global,
    found: Option<&[u8]>,
    value: &Value,
) -> Result<bool, CaseFault> {
    match found {
        None => Ok(value.is_null()),
        Some(found) if !value.is_null() => Ok(bytes_of(alloc, value)?.as_slice() == found),
        Some(_) => Ok(false),
    }
}

/// A number of 64 bits: a JSON number without a point, or decimal digits in a text.
pub fn number_of(value: &Value) -> Result<u64, CaseFault> {
    let number = match value.as_str() {
        Some(digits) => digits.parse::<u64>().ok(),
        None => value.as_u64(),
    };
    number.ok_or(CaseFault::NoValue("a number of 64 bits"))
}

/// A number of 32 bits.
pub fn small_of(value: &Value) -> Result<u32, CaseFault> {
    let number = number_of(value)?;
    u32::try_from(number).map_err(|_| CaseFault::NoValue("a number of 32 bits"))
}

/// A number of 8 bits.
pub fn byte_of(value: &Value) -> Result<u8, CaseFault> {
    let number = number_of(value)?;
    u8::try_from(number).map_err(|_| CaseFault::NoValue("a number of 8 bits"))
}

/// A list.
pub fn list_of(value: &Value) -> Result<&[Value], CaseFault> {
    match value.as_array() {
        Some(list) => Ok(list.as_slice()),
        None => Err(CaseFault::NoValue("a list")),
    }
}

// ---- fields of a case

/// The text that a field has.
pub fn word_at<'a>(case: &'a Value, name: &'static str) -> Result<&'a str, CaseFault> {
    word_of(field(case, name)?)
}

/// The bytes whose hexadecimal digits a field has.
pub fn bytes_at(alloc: Global, case: &Value, name: &'static str) -> Result<Vec<u8>, CaseFault> {
    bytes_of(alloc, field(case, name)?)
}

/// The 32 bytes whose hexadecimal digits a field has.
pub fn dig_at(case: &Value, name: &'static str) -> Result<Dig, CaseFault> {
    dig_of(field(case, name)?)
}

/// The number that a field has.
pub fn number_at(case: &Value, name: &'static str) -> Result<u64, CaseFault> {
    number_of(field(case, name)?)
}

/// The number of 32 bits that a field has.
pub fn small_at(case: &Value, name: &'static str) -> Result<u32, CaseFault> {
    small_of(field(case, name)?)
}

/// The number of 8 bits that a field has.
pub fn byte_at(case: &Value, name: &'static str) -> Result<u8, CaseFault> {
    byte_of(field(case, name)?)
}

/// Whether a field has `true`.
pub fn flag_at(case: &Value, name: &'static str) -> Result<bool, CaseFault> {
    let flag = field(case, name)?.as_bool();
    flag.ok_or(CaseFault::NoValue("true or false"))
}

/// The list that a field has.
pub fn list_at<'a>(case: &'a Value, name: &'static str) -> Result<&'a [Value], CaseFault> {
    list_of(field(case, name)?)
}
