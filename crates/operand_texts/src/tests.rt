use super::*;
use Field::{Bd, Bf, Bi, Bo, By, Fxm, Mb, Me, Prs, R, Ra, Rb, Ric, Rs, Rt, Si, Spr, Third, Two};
use OperandText::{
    Displacement, DisplacementOrZero, Number, Register, RegisterOrZero, Signed, Target,
};
use ppc_ops::Op;

fn stand(op: Op, wanted: &[OperandText]) -> bool {
    operands(op) == wanted
}

#[test]
fn operands_stand_as_the_assembler_has_them(rt: HostRuntime) {
    assert!(rt; stand(Op::Addi, &[Register(Rt), RegisterOrZero(Ra), Signed(Si)]));
    assert!(rt; stand(Op::Addic, &[Register(Rt), Register(Ra), Signed(Si)]));
    assert!(rt; stand(Op::Neg, &[Register(Rt), Register(Ra)]));
    assert!(rt; stand(Op::Ld, &[Register(Rt), DisplacementOrZero]));
    assert!(rt; stand(Op::Lwzu, &[Register(Rt), Displacement]));
    assert!(rt;
        stand(
            Op::StwcxDot,
            &[Register(Rt), RegisterOrZero(Ra), Register(Rb)]
        )
    );
    assert!(rt; stand(Op::Stdux, &[Register(Rt), Register(Ra), Register(Rb)]));
    assert!(rt;
        stand(
            Op::Maddld,
            &[Register(Rt), Register(Ra), Register(Rb), Register(Third)]
        )
    );
    assert!(rt; stand(Op::Bc, &[Number(Bo), Number(Bi), Target(Bd)]));
    assert!(rt; stand(Op::Isync, &[]));
}

#[test]
fn operands_that_other_assemblers_write_otherwise(rt: HostRuntime) {
    assert!(rt; stand(Op::Mtspr, &[Number(Spr), Register(Rs)]));
    assert!(rt; stand(Op::Mtcrf, &[Register(Rs), Number(Fxm)]));
    assert!(rt;
        stand(
            Op::Cmpeqb,
            &[Number(Bf), Number(Two), Register(Ra), Register(Rb)]
        )
    );
    let rlwnm = [
        Register(Ra),
        Register(Rs),
        Register(By),
        Number(Mb),
        Number(Me),
    ];
    assert!(rt; stand(Op::Rlwnm, &rlwnm));
    let tlbie = [
        Register(Rb),
        Register(Rs),
        Number(Ric),
        Number(Prs),
        Number(R),
    ];
    assert!(rt; stand(Op::Tlbie, &tlbie));
}

#[test]
fn a_name_takes_the_marks_of_its_layout(rt: HostRuntime) {
    assert!(rt; takes_overflow(Op::Neg) && !takes_overflow(Op::Mulhw));
    assert!(rt; takes_record(Op::Mulhw) && !takes_record(Op::AddicDot));
    assert!(rt; takes_link(Op::Bctar) && !takes_link(Op::Isync));
    assert!(rt; takes_absolute(Op::Bc) && !takes_absolute(Op::Bclr));
}
