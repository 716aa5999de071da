use super::*;

#[test]
fn numbers_have_no_sign_and_no_leading_zero(rt: HostRuntime) {
    assert_eq!(rt; read_number(b"0", 9), Some(0));
    assert_eq!(rt; read_number(b"1048576", 1_048_576), Some(1_048_576));
    assert_eq!(rt; read_number(b"00", 9), None);
    assert_eq!(rt; read_number(b"07", 9), None);
    assert_eq!(rt; read_number(b"+7", 9), None);
    assert_eq!(rt; read_number(b"", 9), None);
}

#[test]
fn numbers_end_at_the_greatest(rt: HostRuntime) {
    assert_eq!(rt; read_number(b"1048577", 1_048_576), None);
    assert_eq!(rt;
        read_number(b"18446744073709551615", u64::MAX),
        Some(u64::MAX)
    );
    assert_eq!(rt; read_number(b"18446744073709551616", u64::MAX), None);
    assert_eq!(rt; read_number(b"99999999999999999999999999", u64::MAX), None);
}

#[test]
fn hexadecimal_digits_have_either_case(rt: HostRuntime) {
    assert_eq!(rt; read_hex(b"0"), Some(0));
    assert_eq!(rt; read_hex(b"00aF"), Some(175));
    assert_eq!(rt; read_hex(b"fFfFfFfFfFfFfFfF"), Some(u64::MAX));
    assert_eq!(rt; read_hex(b"00000000000000001"), None);
    assert_eq!(rt; read_hex(b""), None);
    assert_eq!(rt; read_hex(b"g"), None);
    assert_eq!(rt; read_hex(b"0x1"), None);
}

#[test]
fn hexadecimal_numbers_end_at_the_greatest(rt: HostRuntime) {
    assert_eq!(rt; read_hex_up_to(b"00000000000000001", 1), Some(1));
    assert_eq!(rt; read_hex_up_to(b"10", 15), None);
    assert_eq!(rt; read_hex_up_to(b"10000000000000000", u64::MAX), None);
}
