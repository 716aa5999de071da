use super::*;

#[test]
fn a_row_has_the_fixed_bits_of_its_operation(rt: HostRuntime) {
    let addi = Row {
        mask: 0xfc00_0000,
        value: 0x3800_0000,
        op: Op::Addi,
    };
    let sc = Row {
        mask: 0xfc00_0002,
        value: 0x4400_0002,
        op: Op::Sc,
    };
    assert_eq!(rt; row_count(), 200);
    assert_eq!(rt; row(0), Some(addi));
    assert_eq!(rt; row(199), Some(sc));
    assert_eq!(rt; row(200), None);
}

#[test]
fn an_operation_has_its_name_its_layout_and_its_classes(rt: HostRuntime) {
    assert_eq!(rt; name(Op::StwcxDot), "stwcx.");
    assert_eq!(rt; layout(Op::StwcxDot), Layout::AccessX);
    assert!(rt; has_one_source(Op::Neg) && !has_one_source(Op::Add));
    assert!(rt; takes_zero(Op::Addis) && !takes_zero(Op::Addic));
    assert!(rt; shifts_words(Op::Srawi) && turns_by_register(Op::Rldcr));
    assert!(rt; compares_unsigned(Op::Cmpli) && seeks_any_byte(Op::Cmpeqb));
    assert!(rt; scales_displacement(Op::Lwa) && branches_to_count(Op::Bcctr));
    assert!(rt; loads_with_update(Op::Lhaux) && stores_with_update(Op::Stdux));
    assert!(rt; is_invalid(Insn::Sync { l: 3 }) && !is_invalid(Insn::Sync { l: 2 }));
}
