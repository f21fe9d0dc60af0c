//! Tests of `vc_num`: whole numbers and their decimal texts.

use std::test::Fail;
use vc_num::{DecimalFault, checked_add, checked_mul, checked_sub, gcd, read_decimal};

#[test]
fn whole_numbers(rt: HostRuntime) -> Result<(), Fail> {
    assert_eq!(rt; gcd(12, 18), 6);
    assert_eq!(rt; gcd(0, 0), 0);
    assert_eq!(rt; checked_mul(1 << 126, 2), None);
    assert_eq!(rt; checked_add(i128::MAX, 1), None);
    assert_eq!(rt; checked_sub(1, 2), Some(-1));
    Ok(())
}

#[test]
fn decimal_texts(rt: HostRuntime) -> Result<(), Fail> {
    for (text, number) in [
        ("007", Ok(7)),
        ("", Err(DecimalFault::NotDigits { at: 0 })),
        ("1a", Err(DecimalFault::NotDigits { at: 1 })),
        ("340282366920938463463374607431768211455", Ok(u128::MAX)),
        (
            "340282366920938463463374607431768211456",
            Err(DecimalFault::Overflow),
        ),
        (
            "999999999999999999999999999999999999999999x",
            Err(DecimalFault::NotDigits { at: 42 }),
        ),
    ] {
        assert_eq!(rt; read_decimal(text.as_bytes()), number, "{text}");
    }
    Ok(())
}
