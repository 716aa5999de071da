use super::*;
use line_text::Line;
use outer_io::{MemSink, SinkFault};
use ppc_ops::{Insn, Op};
use std::test::Fail;

fn text_is(word: u32, wanted: &str) -> bool {
    let mut line = Line::new();
    push_word(&mut line, word);
    line.as_slice() == wanted.as_bytes()
}

#[test]
fn targets_of_branches_are_distances_or_addresses(rt: HostRuntime) {
    assert!(rt; text_is(0x4800_0000, "b .+0"));
    assert!(rt; text_is(0x4BFF_FFFC, "b .-4"));
    assert!(rt; text_is(0x49FF_FFFC, "b .+33554428"));
    assert!(rt; text_is(0x4BFF_FFFE, "ba 18446744073709551612"));
    assert!(rt; text_is(0x4800_0003, "bla 0"));
    assert!(rt; text_is(0x4280_FFF8, "bc 20,0,.-8"));
    assert!(rt; text_is(0x4280_000A, "bca 20,0,8"));
    assert!(rt; text_is(0x4280_FFFA, "bca 20,0,18446744073709551608"));
}

#[test]
fn marks_stand_behind_the_name(rt: HostRuntime) {
    assert!(rt; text_is(0x7C22_1E15, "addo. r1,r2,r3"));
    assert!(rt; text_is(0x7C83_FEF7, "extswsli. r3,r4,63"));
    assert!(rt; text_is(0x7C60_212D, "stwcx. r3,0,r4"));
    assert!(rt; text_is(0x4E80_0021, "bclrl 20,0"));
    assert!(rt; text_is(0x4C00_0024, "rfid"));
}

#[test]
fn a_register_stands_with_r_or_as_0(rt: HostRuntime) {
    assert!(rt; text_is(0x7C83_1A14, "add r4,r3,r3"));
    assert!(rt; text_is(0x7C64_00D0, "neg r3,r4"));
    assert!(rt; text_is(0x1064_29B3, "maddld r3,r4,r5,r6"));
    assert!(rt; text_is(0x5C83_283E, "rlwnm r3,r4,r5,0,31"));
    assert!(rt; text_is(0x3860_0001, "addi r3,0,1"));
    assert!(rt; text_is(0x7C60_215E, "isel r3,0,r4,5"));
    assert!(rt; text_is(0x7C00_27EC, "dcbz 0,r4"));
    assert!(rt; text_is(0x7C60_26AA, "lbzcix r3,0,r4"));
    assert!(rt; text_is(0xE860_0008, "ld r3,8(0)"));
    assert!(rt; text_is(0x8000_0000, "lwz r0,0(0)"));
    assert!(rt; text_is(0x0FE0_FFFF, "twi 31,r0,-1"));
}

#[test]
fn numbers_stand_in_base_ten(rt: HostRuntime) {
    assert!(rt; text_is(0x2FA3_FFFF, "cmpi 7,1,r3,-1"));
    assert!(rt; text_is(0x2803_FFFF, "cmpli 0,0,r3,65535"));
    assert!(rt; text_is(0x7D84_29C0, "cmpeqb 3,0,r4,r5"));
    assert!(rt; text_is(0x4C7F_FFC5, "addpcis r3,-1"));
    assert!(rt; text_is(0x5483_0706, "rlwinm r3,r4,0,28,3"));
    assert!(rt; text_is(0x7883_07C2, "rldicl r3,r4,32,31"));
    assert!(rt; text_is(0x7C6F_F120, "mtcrf r3,255"));
    assert!(rt; text_is(0x7C78_0026, "mfocrf r3,128"));
    assert!(rt; text_is(0x7C7C_0100, "setb r3,7"));
    assert!(rt; text_is(0x4C88_0000, "mcrf 1,2"));
    assert!(rt; text_is(0x7D80_0480, "mcrxrx 3"));
    assert!(rt; text_is(0x4C22_FA02, "crand 1,2,31"));
    assert!(rt; text_is(0x7C68_02A6, "mfspr r3,8"));
    assert!(rt; text_is(0x7C6C_42E6, "mftb r3,268"));
    assert!(rt; text_is(0x7C68_03A6, "mtspr 8,r3"));
    assert!(rt; text_is(0x7C61_0164, "mtmsrd r3,1"));
    assert!(rt; text_is(0x4400_0022, "sc 1"));
    assert!(rt; text_is(0x7CA3_2264, "tlbie r4,r5,0,1,1"));
    assert!(rt; text_is(0x7CA9_2224, "tlbiel r4,r5,2,0,1"));
}

#[test]
fn words_that_mean_no_form_are_directives(rt: HostRuntime) {
    assert!(rt; text_is(0x0000_0000, ".word 0x00000000"));
    assert!(rt; text_is(0x8463_0000, ".word 0x84630000"));
    assert!(rt; text_is(0xC800_0000, ".word 0xc8000000"));
}

/// `addi r3,0,1`.
const ADDI: Insn = Insn::AddImm {
    op: Op::Addi,
    rt: 3,
    ra: 0,
    si: 1,
};

#[test]
fn the_text_is_put_as_one_piece(rt: HostRuntime) -> Result<(), Fail> {
    let mut out = MemSink::open(rt.alloc(), 15)?;
    assert_eq!(rt; print_insn(&ADDI, &mut out), Ok(()));
    assert_eq!(rt; out.bytes(), b"addi r3,0,1".as_slice());
    assert_eq!(rt; print_insn(&Insn::Isync, &mut out), Err(SinkFault));
    assert_eq!(rt; out.bytes(), b"addi r3,0,1".as_slice());
    Ok(())
}

#[test]
fn a_fault_of_the_sink_is_returned(rt: HostRuntime) -> Result<(), Fail> {
    let mut out = MemSink::open(rt.alloc(), 64)?;
    out.fail_call(1, 4)?;
    assert_eq!(rt; print_insn(&ADDI, &mut out), Err(SinkFault));
    assert_eq!(rt; out.bytes(), b"addi".as_slice());
    assert_eq!(rt; print_insn(&Insn::Isync, &mut out), Ok(()));
    assert_eq!(rt; out.bytes(), b"addiisync".as_slice());
    Ok(())
}
