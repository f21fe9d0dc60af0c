//! Tests of `vc_basic`: truth values, residues, whole numbers and costs as weights.

use std::test::Fail;
use vc_basic::{B, F2, Nmin, NminValue, Z};
use vc_ring::{Field, NumberFault, Overflow, Semiring, Split, StarFault, sum};

#[test]
fn truth_values(rt: HostRuntime) -> Result<(), Fail> {
    assert_eq!(rt; sum::<B>(&[]), Ok(B::zero()));
    assert_eq!(rt; sum::<B>(&[false, true, true]), Ok(B::one()));
    assert_eq!(rt; B::mul(true, false), Ok(false));
    assert_eq!(rt; B::star(false), Ok(true));
    for (text, value) in [
        ("0", Ok(false)),
        ("1", Ok(true)),
        ("", Err(NumberFault::Bad)),
        ("01", Err(NumberFault::Bad)),
    ] {
        assert_eq!(rt; B::read(text.as_bytes()), value, "{text}");
        assert_eq!(rt; F2::read(text.as_bytes()), value, "{text}");
    }
    let mut text = String::new(rt.alloc());
    B::write(true, &mut text)?;
    F2::write(false, &mut text)?;
    assert_eq!(rt; text.as_str(), "10");
    Ok(())
}

#[test]
fn residues(rt: HostRuntime) -> Result<(), Fail> {
    assert_eq!(rt; F2::add(true, true), Ok(false));
    assert_eq!(rt; F2::star(true), Err(StarFault::NoStar(true)));
    assert_eq!(rt; F2::neg(true), true);
    assert_eq!(rt; F2::inverse(true), true);
    Ok(())
}

#[test]
fn whole_numbers(rt: HostRuntime) -> Result<(), Fail> {
    assert_eq!(rt;
        Z::mul(1 << 126, 2),
        Err(Overflow::Mul {
            left: 1 << 126,
            right: 2
        })
    );
    assert_eq!(rt;
        Z::add(-i128::MAX, -1),
        Err(Overflow::Add {
            left: -i128::MAX,
            right: -1
        })
    );
    assert_eq!(rt; Z::star(0), Ok(1));
    for (text, value) in [
        ("007", Ok(7)),
        ("-12", Ok(-12)),
        ("-0", Ok(0)),
        ("170141183460469231731687303715884105727", Ok(i128::MAX)),
        (
            "-170141183460469231731687303715884105728",
            Err(NumberFault::Overflow),
        ),
        ("", Err(NumberFault::Bad)),
        ("-", Err(NumberFault::Bad)),
        ("+1", Err(NumberFault::Bad)),
        ("1-", Err(NumberFault::Bad)),
    ] {
        assert_eq!(rt; Z::read(text.as_bytes()), value, "{text}");
    }
    let mut text = String::new(rt.alloc());
    Z::write(-120, &mut text)?;
    Z::write(0, &mut text)?;
    assert_eq!(rt; text.as_str(), "-1200");
    Ok(())
}

#[test]
fn whole_rows_split(rt: HostRuntime) -> Result<(), Fail> {
    let mut row = [4, -6];
    assert_eq!(rt; Z::split(&mut row), Ok(2));
    assert_eq!(rt; row, [2, -3]);
    let mut row = [-4, 6];
    assert_eq!(rt; Z::split(&mut row), Ok(-2));
    assert_eq!(rt; row, [2, -3]);
    Ok(())
}

#[test]
fn tropical_weights(rt: HostRuntime) -> Result<(), Fail> {
    let greatest = NminValue::Finite(u128::MAX);
    let one = NminValue::Finite(1);
    assert_eq!(rt; Nmin::add(greatest, one), Ok(one));
    assert_eq!(rt;
        Nmin::mul(greatest, one),
        Err(Overflow::Mul {
            left: greatest,
            right: one
        })
    );
    assert_eq!(rt;
        Nmin::mul(greatest, NminValue::Infinite),
        Ok(NminValue::Infinite)
    );
    for (text, value) in [
        ("oo", Ok(NminValue::Infinite)),
        ("0012", Ok(NminValue::Finite(12))),
        (
            "340282366920938463463374607431768211456",
            Err(NumberFault::Overflow),
        ),
        ("-1", Err(NumberFault::Bad)),
        ("ooo", Err(NumberFault::Bad)),
        ("o", Err(NumberFault::Bad)),
    ] {
        assert_eq!(rt; Nmin::read(text.as_bytes()), value, "{text}");
    }
    let mut text = String::new(rt.alloc());
    Nmin::write(NminValue::Finite(120), &mut text)?;
    Nmin::write(NminValue::Infinite, &mut text)?;
    assert_eq!(rt; text.as_str(), "120oo");
    Ok(())
}

#[test]
fn tropical_rows_split(rt: HostRuntime) -> Result<(), Fail> {
    let mut row = [
        NminValue::Finite(7),
        NminValue::Infinite,
        NminValue::Finite(5),
    ];
    assert_eq!(rt; Nmin::split(&mut row), Ok(NminValue::Finite(5)));
    assert_eq!(rt;
        row,
        [
            NminValue::Finite(2),
            NminValue::Infinite,
            NminValue::Finite(0)
        ]
    );
    Ok(())
}
