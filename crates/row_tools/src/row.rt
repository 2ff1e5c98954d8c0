use crate::RowFault;

/// What of a row stands before its first mark, and what stands behind it.
pub fn cut<'a>(row: &'a str, mark: &str) -> Result<(&'a str, &'a str), RowFault> {
    match row.split_once(mark) {
        Some(parts) => Ok(parts),
        None => Err(RowFault::Unread),
    }
}

/// A row in three parts; the last one may have marks in it.
pub fn in_three<'a>(row: &'a str, mark: &str) -> Result<(&'a str, &'a str, &'a str), RowFault> {
    let (first, rest) = cut(row, mark)?;
    let (second, third) = cut(rest, mark)?;
    Ok((first, second, third))
}

/// A row in four parts; the last one may have marks in it.
pub fn in_four<'a>(
    row: &'a str,
    mark: &str,
) -> Result<(&'a str, &'a str, &'a str, &'a str), RowFault> {
    let (first, rest) = cut(row, mark)?;
    let (second, third, fourth) = in_three(rest, mark)?;
    Ok((first, second, third, fourth))
}

/// The number that a word has in decimal digits.
pub fn number(word: &str) -> Result<u32, RowFault> {
    match word.parse::<u32>() {
        Ok(number) => Ok(number),
        Err(_) => Err(RowFault::Unread),
    }
}
