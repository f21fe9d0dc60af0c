// What several weight sets do alike: each macro is the body of a method, over its parameters.

// The value of a checked step, or the refusal that keeps its operands.
macro_rules! step {
    ($refusal:ident, $result:expr, $left:expr, $right:expr) => {
        match $result {
            Some(value) => Ok(value),
            None => Err(vc_ring::Overflow::$refusal {
                left: $left,
                right: $right,
            }),
        }
    };
}

// The star of a set in which it is defined at zero alone.
macro_rules! star_of_zero {
    ($of:expr, $zero:expr, $one:expr) => {
        if $of == $zero {
            Ok($one)
        } else {
            Err(vc_ring::StarFault::NoStar($of))
        }
    };
}

// The truth value that the text `0` or `1` spells.
macro_rules! read_bit {
    ($text:expr) => {
        match $text {
            [b'0'] => Ok(false),
            [b'1'] => Ok(true),
            _ => Err(vc_ring::NumberFault::Bad),
        }
    };
}

// A number that was read, or why the text is no weight.
macro_rules! read_number {
    ($read:expr) => {
        match $read {
            Ok(number) => Ok(number),
            Err(vc_num::NumeralFault::Bad) => Err(vc_ring::NumberFault::Bad),
            Err(vc_num::NumeralFault::Overflow) => Err(vc_ring::NumberFault::Overflow),
        }
    };
}

// Appends `0` or `1`.
macro_rules! write_bit {
    ($value:expr, $into:expr) => {
        $into.push(if $value { '1' } else { '0' })
    };
}

// Appends the digits of a number, without leading zeros.
macro_rules! write_number {
    ($value:expr, $into:expr) => {
        $into.push_str(itoa::Buffer::new().format($value))
    };
}

pub(crate) use read_bit;
pub(crate) use read_number;
pub(crate) use star_of_zero;
pub(crate) use step;
pub(crate) use write_bit;
pub(crate) use write_number;
