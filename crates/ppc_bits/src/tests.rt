use super::*;

#[test]
fn bit_zero_is_the_highest(rt: HostRuntime) {
    assert_eq!(rt; field(0x3860_0001, 32, 0, 5), 14);
    assert_eq!(rt; mask(60, 3), 0xf000_0000_0000_000f);
}

#[test]
fn rotations_go_up_and_signs_reach_the_top(rt: HostRuntime) {
    assert_eq!(rt; rotl64(1, 63), 0x8000_0000_0000_0000);
    assert_eq!(rt; rotl32(0x1234_5678, 0), 0x1234_5678_1234_5678);
    assert_eq!(rt; sign_extend(0xffff, 16), u64::MAX);
}

#[test]
fn words_stand_for_numbers(rt: HostRuntime) {
    assert!(rt; is_set(0x8000_0000, 32, 0) && !is_set(0x8000_0000, 32, 31));
    assert_eq!(rt; signed_word(0x1_ffff_fffe), -2);
    assert_eq!(rt; doubleword(-1), u64::MAX);
}

#[test]
fn addresses_go_on_past_the_last(rt: HostRuntime) {
    assert_eq!(rt; next_address(0xffff_ffff_ffff_fffc), 0);
    assert_eq!(rt; aligned(0x1007), 0x1004);
}
