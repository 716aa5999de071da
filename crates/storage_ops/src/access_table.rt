// Written by tools/make_tables.py from docs/INSTRUCTIONS.md.
//! What each load and store moves.

ghost use Rattle.std.specs.Prelude.{◌≡◌, IfSome, true};
ghost use Rattle.storage_ops.specs.AccessTable as table;
ghost use Rattle.ppc_bus.specs.Holding.{is_size};

use crate::forms::{
    AccessForm, in_reverse, loads, past_caches, stores, with_reservation, with_sign, with_update,
};
use ppc_ops::Op;

/// What an operation moves between a register and storage, or `None` where it is no load or store of a register.
pub fn access_form(op: Op) -> Option<AccessForm>
    ensures form { result ≡ table.access_form op }
    ensures size { IfSome result (λ form. is_size form.size ≡ true) }
{
    let form = match op {
        Op::Lwz => loads(4),
        Op::Lwzu => with_update(loads(4)),
        Op::Lbz => loads(1),
        Op::Lbzu => with_update(loads(1)),
        Op::Stw => stores(4),
        Op::Stwu => with_update(stores(4)),
        Op::Stb => stores(1),
        Op::Stbu => with_update(stores(1)),
        Op::Lhz => loads(2),
        Op::Lhzu => with_update(loads(2)),
        Op::Lha => with_sign(loads(2)),
        Op::Lhau => with_update(with_sign(loads(2))),
        Op::Sth => stores(2),
        Op::Sthu => with_update(stores(2)),
        Op::Ld => loads(8),
        Op::Ldu => with_update(loads(8)),
        Op::Lwa => with_sign(loads(4)),
        Op::Std => stores(8),
        Op::Stdu => with_update(stores(8)),
        Op::Lwzx => loads(4),
        Op::Lwzux => with_update(loads(4)),
        Op::Lbzx => loads(1),
        Op::Lbzux => with_update(loads(1)),
        Op::Lhzx => loads(2),
        Op::Lhzux => with_update(loads(2)),
        Op::Lhax => with_sign(loads(2)),
        Op::Lhaux => with_update(with_sign(loads(2))),
        Op::Lwax => with_sign(loads(4)),
        Op::Lwaux => with_update(with_sign(loads(4))),
        Op::Ldx => loads(8),
        Op::Ldux => with_update(loads(8)),
        Op::Stwx => stores(4),
        Op::Stwux => with_update(stores(4)),
        Op::Stbx => stores(1),
        Op::Stbux => with_update(stores(1)),
        Op::Sthx => stores(2),
        Op::Sthux => with_update(stores(2)),
        Op::Stdx => stores(8),
        Op::Stdux => with_update(stores(8)),
        Op::Lwbrx => in_reverse(loads(4)),
        Op::Lhbrx => in_reverse(loads(2)),
        Op::Ldbrx => in_reverse(loads(8)),
        Op::Stwbrx => in_reverse(stores(4)),
        Op::Sthbrx => in_reverse(stores(2)),
        Op::Stdbrx => in_reverse(stores(8)),
        Op::Lbarx => with_reservation(loads(1)),
        Op::Lharx => with_reservation(loads(2)),
        Op::Lwarx => with_reservation(loads(4)),
        Op::Ldarx => with_reservation(loads(8)),
        Op::StbcxDot => with_reservation(stores(1)),
        Op::SthcxDot => with_reservation(stores(2)),
        Op::StwcxDot => with_reservation(stores(4)),
        Op::StdcxDot => with_reservation(stores(8)),
        Op::Lwzcix => past_caches(loads(4)),
        Op::Lhzcix => past_caches(loads(2)),
        Op::Lbzcix => past_caches(loads(1)),
        Op::Ldcix => past_caches(loads(8)),
        Op::Stwcix => past_caches(stores(4)),
        Op::Sthcix => past_caches(stores(2)),
        Op::Stbcix => past_caches(stores(1)),
        Op::Stdcix => past_caches(stores(8)),
        _ => return None,
    };
    Some(form)
}
