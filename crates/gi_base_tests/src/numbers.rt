use gi_llt::{Llt, Target, high_product, part, sext, width, wrap};

#[test]
fn takes_bits(rt: HostRuntime) {
    for (value, bits, wanted) in [
        (0x1ffu128, 8u16, 0xffu128),
        (0x100, 8, 0),
        (3, 1, 1),
        (u128::MAX, 128, u128::MAX),
        (u128::MAX, 127, u128::MAX / 2),
    ] {
        assert!(rt; 1 <= bits && bits <= 128);
        assert_eq!(rt; wrap(value, bits), wanted, "{value} to {bits}");
    }
    for (value, bits, k, wanted) in [
        (0x1234_5678u128, 8u16, 0u16, 0x78u128),
        (0x1234_5678, 8, 3, 0x12),
        (0x1234_5678, 16, 1, 0x1234),
        (1 << 127, 64, 1, 1 << 63),
        (7, 128, 0, 7),
    ] {
        assert!(rt; 1 <= bits && bits <= 128 && k <= 100);
        assert!(rt; u32::from(k) * u32::from(bits) < 128);
        assert_eq!(rt; part(value, bits, k), wanted, "{value} by {bits} at {k}");
    }
}

#[test]
fn extends_signs(rt: HostRuntime) {
    for (value, from, to, wanted) in [
        (0x80u128, 8u16, 16u16, 0xff80u128),
        (0x7f, 8, 16, 0x7f),
        (0x1ff, 8, 16, 0xffff),
        (0x17f, 8, 32, 0x7f),
        (1, 1, 128, u128::MAX),
        (5, 8, 8, 5),
        (1 << 127, 128, 128, 1 << 127),
        (0x8000, 16, 64, 0xffff_ffff_ffff_8000),
    ] {
        assert!(rt; 1 <= from && from <= to && to <= 128);
        assert_eq!(rt;
            sext(value, from, to),
            wanted,
            "{value} from {from} to {to}"
        );
    }
}

#[test]
fn multiplies(rt: HostRuntime) {
    let most = u64::MAX as u128;
    for (bits, a, b, unsigned, signed) in [
        (8u16, 200u128, 3u128, 2u128, 255u128),
        (8, 200, 200, 156, 12),
        (8, 255, 1, 0, 255),
        (1, 1, 1, 0, 0),
        (32, 0x8000_0000, 0xffff_ffff, 0x7fff_ffff, 0),
        (64, most, most, most - 1, 0),
        (64, 1 << 63, 1 << 63, 1 << 62, 1 << 62),
        (64, 1 << 63, 1, 0, most),
        (64, 0, most - 4, 0, 0),
    ] {
        assert!(rt; 1 <= bits && bits <= 64);
        assert!(rt; wrap(a, bits) == a && wrap(b, bits) == b);
        assert_eq!(rt; high_product(a, b, bits, false), unsigned, "{a} by {b}");
        assert_eq!(rt; high_product(a, b, bits, true), signed, "{a} by {b}");
    }
}

#[test]
fn has_widths(rt: HostRuntime) {
    let target = Target {
        xlen: 64,
        zbb: false,
    };
    assert_eq!(rt; width(Llt::Scalar(17), target), 17);
    assert_eq!(rt; width(Llt::Pointer, target), 64);
}
