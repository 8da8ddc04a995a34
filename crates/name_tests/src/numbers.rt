// Rows of numbers, addresses and bytes as text.

use number_text::{
    cut_at, is_same, put_ipv4, put_ipv6, read_decimal, read_decimal_u8, read_decimal_u16,
    read_decimal_u32, read_hex, read_ipv4, read_ipv6,
};
use row_words::{RowError, Told, first_word, hex_of, quoted, two_parts};
use std::alloc::Global;

/// `number ..`: what a text is read as, and what a number, an address or bytes are written as.
pub fn number_row(told: &mut Told, row: &str) -> Result<(), RowError> {
    match first_word(row) {
        ("decimal", rest) => put_read(told, rest),
        ("bytes", digits) => told.put_number(read_decimal(hex_of(told.alloc, digits)?.as_slice())),
        ("ipv4", text) => put_read_ipv4(told, quoted(text)),
        ("ipv6", text) => put_read_ipv6(told, quoted(text)),
        ("hex", text) => put_read_hex(told, quoted(text)),
        ("cut", text) => put_cut(told, quoted(text)),
        ("same", rest) => put_same(told, rest),
        ("put", rest) => put_written(told, rest),
        _ => Err(RowError::NotUnderstood),
    }
}

// `decimal BITS TEXT`: the number of so many bits.
fn put_read(told: &mut Told, rest: &str) -> Result<(), RowError> {
    let (bits, text) = two_parts(rest)?;
    let text = quoted(text).as_bytes();
    let number = match bits {
        "64" => read_decimal(text),
        "32" => read_decimal_u32(text).map(u64::from),
        "16" => read_decimal_u16(text).map(u64::from),
        "8" => read_decimal_u8(text).map(u64::from),
        _ => return Err(RowError::NotUnderstood),
    };
    told.put_number(number)
}

// `ipv4 TEXT`: the four bytes of the address.
fn put_read_ipv4(told: &mut Told, text: &str) -> Result<(), RowError> {
    match read_ipv4(text.as_bytes()) {
        Some(address) => told.put_hex(&address.to_be_bytes()),
        None => told.put("none"),
    }
}

// `ipv6 TEXT`: the sixteen bytes of the address.
fn put_read_ipv6(told: &mut Told, text: &str) -> Result<(), RowError> {
    match read_ipv6(text.as_bytes()) {
        Some(address) => told.put_hex(&address.to_be_bytes()),
        None => told.put("none"),
    }
}

// `hex TEXT`: the bytes, each in decimal.
fn put_read_hex(told: &mut Told, text: &str) -> Result<(), RowError> {
    let Some(bytes) = read_hex(told.alloc, text.as_bytes())? else {
        return told.put("none");
    };
    if bytes.is_empty() {
        return told.put("no bytes");
    }
    for (place, byte) in bytes.iter().enumerate() {
        told.put_comma(place)?;
        told.put_decimal(u64::from(*byte))?;
    }
    Ok(())
}

// `cut TEXT`: what stands before and after the first space.
fn put_cut(told: &mut Told, text: &str) -> Result<(), RowError> {
    let Some((before, after)) = cut_at(text.as_bytes(), b' ') else {
        return told.put("none");
    };
    told.put("\"")?;
    told.text.extend_from_slice(before)?;
    told.put("\", \"")?;
    told.text.extend_from_slice(after)?;
    told.put("\"")
}

// `same LEFT RIGHT`
fn put_same(told: &mut Told, rest: &str) -> Result<(), RowError> {
    let (left, right) = two_parts(rest)?;
    told.put_yes(is_same(left.as_bytes(), right.as_bytes()))
}

// `put decimal NUMBER`, `put ipv4 NUMBER`, `put ipv6 NUMBER`, `put hex BYTE ..`: their text. All stand in the row in decimal.
fn put_written(told: &mut Told, rest: &str) -> Result<(), RowError> {
    match first_word(rest) {
        ("decimal", number) => told.put_decimal(number.parse::<u64>()?),
        ("ipv4", number) => Ok(put_ipv4(&mut told.text, number.parse::<u32>()?)?),
        ("ipv6", number) => Ok(put_ipv6(&mut told.text, number.parse::<u128>()?)?),
        ("hex", numbers) => told.put_hex(numbered(told.alloc, numbers)?.as_slice()),
        _ => Err(RowError::NotUnderstood),
    }
}

// The bytes of these numbers.
fn numbered(alloc: Global, numbers: &str) -> Result<Vec<u8>, RowError> {
    let mut bytes = Vec::new(alloc);
    for number in numbers.split_whitespace() {
        bytes.push(number.parse::<u8>()?)?;
    }
    Ok(bytes)
}
