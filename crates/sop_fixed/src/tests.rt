use super::*;
use std::process::Abort;
use std::test::Fail;

#[test]
fn numerals_are_read_and_printed(rt: HostRuntime) -> Result<(), Fail> {
    let mut text = Vec::new(rt.alloc());
    for numeral in [
        &b"-0.0000005"[..],
        b" ",
        b"1e-9",
        b"0e999999999",
        b"1.e-999999999",
        b"10020.30",
    ] {
        match read_numeral(numeral) {
            Ok(x) => print(x, &mut text)?,
            Err(fault) => assert!(rt; fault == NumeralFault::NotNumeral),
        }
        text.push(b' ')?;
    }
    assert_eq!(rt; text.as_slice(), &b"-0.000001  0 0 0 10020.3 "[..]);
    assert!(rt; read_numeral(b"1e999999999") == Err(NumeralFault::OutOfRange));
    Ok(())
}

fn real(rt: &impl Abort, millionths: i64) -> Real {
    Real::of_millionths(millionths).expect(rt, "in range")
}

#[test]
fn reals_are_reckoned(rt: HostRuntime) -> Result<(), Fail> {
    let x = real(&rt, 7_500_000);
    let y = real(&rt, -2_000_000);
    assert!(rt; x.add(y) == Ok(real(&rt, 5_500_000)));
    assert!(rt; x.sub(y) == Ok(real(&rt, 9_500_000)));
    assert!(rt; x.mul(y) == Ok(real(&rt, -15_000_000)));
    assert!(rt; x.div(y) == Ok(real(&rt, -3_750_000)));
    assert!(rt; x.rem(y) == Ok(real(&rt, 1_500_000)));
    assert!(rt; x.sqrt() == Ok(real(&rt, 2_738_612)));
    assert_eq!(rt; x.floor().millionths(), 7_000_000);
    assert_eq!(rt; x.to_int().get(), 7);
    assert_eq!(rt; real(&rt, 0).fit(y, x, x, y).millionths(), 5_500_000);
    assert!(rt; Vec3 { x, y, z: y }.length() == Ok(real(&rt, 8_015_609)));
    // The first 64 bits of the sum of squares are all ones.
    let ones = Vec3 {
        x: real(&rt, 562_949_953_421_311),
        y: real(&rt, 33_554_431),
        z: real(&rt, 0),
    };
    assert!(rt; ones.length() == Ok(real(&rt, 562_949_953_421_311)));
    let end = real(&rt, LARGEST_SIZE.cast_signed());
    assert!(rt; end.sqrt() == Ok(real(&rt, 31_622_776_601)));
    assert!(rt;
        Vec3 {
            x: end,
            y: end,
            z: end
        }
        .length()
            == Err(NumFault::Range)
    );
    Ok(())
}

#[test]
fn ints_are_read_and_reckoned(rt: HostRuntime) -> Result<(), Fail> {
    let x = read_whole(b"-07").expect(&rt, "a whole number in range");
    let y = Int::of(2).expect(&rt, "in range");
    assert_eq!(rt; x.get(), -7);
    assert!(rt; x.add(y) == Int::of(-5));
    assert!(rt; x.sub(y) == Int::of(-9));
    assert!(rt; x.mul(y) == Int::of(-14));
    assert!(rt; x.div(y) == Int::of(-3));
    assert!(rt; x.rem(y) == Int::of(-1));
    assert!(rt; x.to_real() == Ok(real(&rt, -7_000_000)));
    assert!(rt;
        read_whole(b"-2147483648") == Int::of(SMALLEST_INT).map_err(|_| NumeralFault::NotNumeral)
    );
    assert!(rt; read_whole(b"99999999999999999999") == Err(NumeralFault::OutOfRange));
    assert!(rt; read_whole(b"+1") == Err(NumeralFault::NotNumeral));
    assert!(rt; read_number(b"0042", 4) == Some(42));
    assert!(rt; read_number(b"00042", 4).is_none());
    Ok(())
}
