//! The rows by their numbers.

ghost use Rattle.std.specs.Prelude.{◌≡◌, ◌<◌, ℕ, length, slice_get, option_map, Some};
ghost use Rattle.ppc_ops.specs.Rows.{AreApart, IsAloneAt, listed};
ghost use Rattle.ppc_ops.specs.Table.{op_row, rows};

use crate::op::{Op, Row};
use crate::rows::ROWS;

/// How many rows the instruction table has.
pub fn row_count() -> u16
    ensures { result ≡ length rows }
{
    ROWS.len() as u16
}

/// The row of a number, from 0. No word has its fixed bits and those of another row.
pub fn row(i: u16) -> Option<Row>
    ensures row { result ≡ slice_get rows i }
    ensures alone { IsAloneAt rows i result }
{
    row_in(&ROWS, i as usize)
}

fn row_in(rows: &[(u32, u32, Op)], i: usize) -> Option<Row>
    ensures { result ≡ option_map listed (slice_get rows.now i) }
{
    match rows.get(i) {
        None => None,
        Some(&(mask, value, op)) => Some(Row { mask, value, op }),
    }
}

/// The row of an operation.
pub fn row_of(op: Op) -> Row
    ensures { result ≡ op_row op }
{
    row_at(&ROWS, op as usize)
}

fn row_at(rows: &[(u32, u32, Op)], i: usize) -> Row
    requires { i < length rows.now }
    ensures { option_map listed (slice_get rows.now i) ≡ Some result }
{
    let (mask, value, op) = rows[i];
    Row { mask, value, op }
}

/// No word has the fixed bits of two rows.
pub fn rows_apart()
    ensures { AreApart rows }
{}
