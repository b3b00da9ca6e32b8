// The numbers of a line's fields, which tabs part.

// The number of one field.
pub(crate) fn one(field: &str) -> Option<u64> {
    field.parse::<u64>().ok()
}

// The numbers of two fields.
pub(crate) fn two(fields: &str) -> Option<(u64, u64)> {
    let (first, second) = fields.split_once('\t')?;
    Some((one(first)?, one(second)?))
}

// A job refuses all signals over 31 alike, all graces over a day, and all numbers that are not 1 to
// 255: so one that is too large for its type may stand as another that is refused.
pub(crate) fn signal_of(number: u64) -> u8 {
    u8::try_from(number).unwrap_or(u8::MAX)
}

pub(crate) fn grace_of(number: u64) -> u32 {
    u32::try_from(number).unwrap_or(u32::MAX)
}

pub(crate) fn number_of(number: u64) -> u8 {
    u8::try_from(number).unwrap_or(0)
}
