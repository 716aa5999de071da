//! The code of a generated image.

ghost use Rattle.std.specs.Prelude.{◌≡◌, ◌++◌, ◌≤◌, length, OnOk};
ghost use Rattle.ppc_ops.specs.Forms.{IsForm};
ghost use Rattle.gen_image.specs.Code as said;
ghost use Rattle.gen_image.specs.Forms.{AreForms};

use crate::instructions::{
    addi, addis, ld, mfspr, mtspr, ori, rldicr, stb, store_doubleword, tlbie, xori,
};
use ppc_decode::encode;
use ppc_ops::Insn;
use std::alloc::AllocError;

/// The hypervisor's handler of a guest's call.
pub(crate) fn handler() -> [Insn; 11]
    ensures { result ≡ said.handler }
{
    [
        mfspr(20, 319),
        Insn::Sync { l: 2 },
        tlbie(24, 20, 0, false, true),
        Insn::Eieio,
        Insn::TlbSync,
        Insn::Sync { l: 2 },
        addi(21, 21, 1),
        stb(21, 22),
        xori(20, 20, 3),
        mtspr(319, 20),
        Insn::Rfid,
    ]
}

/// The hypervisor's start.
pub(crate) fn beginning() -> [Insn; 17]
    ensures { result ≡ said.beginning }
{
    [
        addis(4, 0, 2),
        mtspr(464, 4),
        addi(4, 0, 1),
        mtspr(319, 4),
        mtspr(48, 4),
        addis(22, 0, 4096),
        addi(24, 0, 2048),
        addi(5, 0, 20480),
        mtspr(314, 5),
        addis(6, 0, -32768),
        rldicr(6, 6, 32, 31),
        ori(6, 6, 4147),
        mtspr(315, 6),
        addis(7, 0, 592),
        ori(7, 7, 1024),
        mtspr(318, 7),
        Insn::Hrfid,
    ]
}

/// A doubleword of the page that a draw names becomes 1 more.
fn visit(draw: u8) -> [Insn; 5]
    ensures { result ≡ said.visit draw }
{
    let address = (16 + u32::from(draw)) * 4096;
    [
        addis(6, 0, (address >> 16) as i16),
        ori(6, 6, (address % (1 << 16)) as u16),
        ld(7, 6),
        addi(7, 7, 1),
        store_doubleword(7, 6),
    ]
}

/// The call of the hypervisor, and the branch back over that and so many visits.
fn call_and_return(visits: u8) -> [Insn; 2]
    ensures { result ≡ said.call_and_return visits }
{
    [
        Insn::Sc { lev: 1 },
        Insn::Jump {
            li: -(20 * i32::from(visits) + 4),
            aa: false,
            lk: false,
        },
    ]
}

/// Puts the word of a form behind some bytes.
fn push_insn(out: &mut Vec<u8>, insn: &Insn) -> Result<(), AllocError>
    requires { IsForm insn.now }
    ensures { OnOk result (out.new.items ≡ out.old.items ++ said.insn_bytes insn.now) }
{
    match encode(insn) {
        Ok(word) => out.extend_from_slice(&word.to_le_bytes()),
        Err(_out_of_field) => unreachable!(),
    }
}

/// Puts the words of forms behind some bytes.
pub(crate) fn push_code(out: &mut Vec<u8>, code: &[Insn]) -> Result<(), AllocError>
    requires { AreForms code.now }
    ensures { OnOk result (out.new.items ≡ out.old.items ++ said.code_bytes code.now) }
{
    for insn in code {
        push_insn(out, insn)?;
    }
    Ok(())
}

/// Puts a guest's code behind some bytes.
pub(crate) fn push_guest_code(out: &mut Vec<u8>, draws: &[u8]) -> Result<(), AllocError>
    requires { length draws.now ≤ 64 }
    ensures { OnOk result (out.new.items ≡ out.old.items ++ said.code_bytes (said.guest_code draws.now)) }
{
    for draw in draws {
        push_code(out, &visit(*draw))?;
    }
    push_code(out, &call_and_return(draws.len() as u8))?;
    Ok(())
}
