//! Tests of `vc_rat`: rational numbers as weights.

use std::test::Fail;
use vc_rat::{Fraction, Q};
use vc_ring::{Field, NumberFault, Overflow, Semiring, Split, StarFault};

#[test]
fn sums_products_and_stars(rt: HostRuntime) -> Result<(), Fail> {
    let half = Fraction::new(1, 2);
    let third = Fraction::new(1, 3);
    let large = Fraction::new(i128::MAX, 1);
    assert_eq!(rt; Q::add(half, third), Ok(Fraction::new(5, 6)));
    assert_eq!(rt;
        Q::add(large, third),
        Err(Overflow::Add {
            left: large,
            right: third
        })
    );
    assert_eq!(rt;
        Q::mul(Fraction::new(-2, 3), Fraction::new(3, 4)),
        Ok(Fraction::new(-1, 2))
    );
    assert_eq!(rt;
        Q::mul(large, Fraction::new(2, i128::MAX)),
        Ok(Fraction::new(2, 1))
    );
    assert_eq!(rt; Q::mul(half, Fraction::new(1, i128::MAX)).is_err(), true);
    assert_eq!(rt; Q::star(half), Ok(Fraction::new(2, 1)));
    assert_eq!(rt; Q::star(Fraction::new(-1, 2)), Ok(Fraction::new(2, 3)));
    assert_eq!(rt;
        Q::star(Fraction::new(-1, 1)),
        Err(StarFault::NoStar(Fraction::new(-1, 1)))
    );
    assert_eq!(rt; Q::neg(half), Fraction::new(-1, 2));
    Ok(())
}

#[test]
fn texts(rt: HostRuntime) -> Result<(), Fail> {
    for (text, value) in [
        ("2/4", Ok(Fraction::new(1, 2))),
        ("-007", Ok(Fraction::new(-7, 1))),
        ("0/5", Ok(Fraction::new(0, 1))),
        ("1/0", Err(NumberFault::Bad)),
        ("1/-2", Err(NumberFault::Bad)),
        ("1/2/3", Err(NumberFault::Bad)),
        ("--1", Err(NumberFault::Bad)),
        (
            "170141183460469231731687303715884105728/2",
            Err(NumberFault::Overflow),
        ),
        (
            "170141183460469231731687303715884105728/",
            Err(NumberFault::Bad),
        ),
    ] {
        assert_eq!(rt; Q::read(text.as_bytes()), value, "{text}");
    }
    let mut text = String::new(rt.alloc());
    Q::write(Fraction::new(6, 4), &mut text)?;
    assert_eq!(rt; text.as_str(), "3/2");
    assert_eq!(rt; Q::read(text.as_bytes()), Ok(Fraction::new(3, 2)));
    text.push(' ')?;
    Q::write(Fraction::new(-8, 4), &mut text)?;
    assert_eq!(rt; text.as_str(), "3/2 -2");
    Ok(())
}

#[test]
fn rows(rt: HostRuntime) -> Result<(), Fail> {
    let first = Fraction::new(-2, 3);
    if first != Q::zero() {
        let mut row = [Q::zero(), first, Fraction::new(1, 2)];
        assert_eq!(rt; Q::split(&mut row), Ok(first));
        assert_eq!(rt; row, [Q::zero(), Q::one(), Fraction::new(-3, 4)]);
        assert_eq!(rt; Q::inverse(first), Fraction::new(-3, 2));
    }
    Ok(())
}
