//! What an expression is worth.

ghost use Rattle.std.specs.Prelude.{◌≡◌, ◌-◌, ◌^◌, take};
ghost use Rattle.asm_places.specs.Sums.{sum_of};
ghost use Rattle.asm_places.specs.Adding.{atom_sum, with_term, IsUpTo};
ghost use Rattle.asm_places.specs.Keeping.{IsSmall};

use crate::names::Names;
use asm_statements::{Atom, Expression};

/// The worth of an expression.
#[derive(Clone, Copy, Debug, PartialEq, Eq)]
pub struct Sum {
    /// The sum of the terms, where a name that is not defined counts as 0.
    pub value: i128,
    /// Whether all names in it are defined.
    pub is_known: bool,
    /// Whether the address of the statement is one of the terms.
    pub uses_here: bool,
}

/// What a term names at an address, by the first `known` names.
fn atom_sum<'a>(atom: Atom<'a>, names: &Names<'a>, known: usize, here: i128) -> Sum
    requires { IsSmall here }
    ensures sum { result ≡ atom_sum (take known names.now) here atom.entry }
    ensures small { IsSmall result.value }
{
    match atom {
        Atom::Number(number) => Sum {
            value: i128::from(number),
            is_known: true,
            uses_here: false,
        },
        Atom::Name(name) => match names.value(name.bytes(), known) {
            Some(value) => Sum {
                value,
                is_known: true,
                uses_here: false,
            },
            None => Sum {
                value: 0,
                is_known: false,
                uses_here: false,
            },
        },
        Atom::Here => Sum {
            value: here,
            is_known: true,
            uses_here: true,
        },
    }
}

/// A sum of fewer than 2^62 terms with one term more.
fn with_term(sum: Sum, negative: bool, term: Sum) -> Sum
    requires few { IsUpTo (2 ^ 62 - 1) sum.value }
    requires small { IsSmall term.value }
    ensures { result ≡ with_term sum negative term }
{
    let value = if negative {
        sum.value - term.value
    } else {
        sum.value + term.value
    };
    Sum {
        value,
        is_known: sum.is_known && term.is_known,
        uses_here: sum.uses_here || term.uses_here,
    }
}

/// What an expression is worth at an address, by the first `known` names.
///
/// The terms of a line with fewer than 2^63 bytes are at most 2^62, since a sign stands between two; each is below 2^65; so the
/// sum fits 128 bits.
pub fn worth_of<'a>(expression: Expression<'a>, names: &Names<'a>, known: usize, here: i128) -> Sum
    requires { IsSmall here }
    ensures { result ≡ sum_of (take known names.now) here expression.entry }
{
    let mut left = expression;
    let _bytes = left.byte_count();
    let mut sum = Sum {
        value: 0,
        is_known: true,
        uses_here: false,
    };
    loop {
        match left.next() {
            Some(term) => {
                let one = atom_sum(term.atom, names, known, here);
                sum = with_term(sum, term.negative, one);
            }
            None => return sum,
        }
    }
}
