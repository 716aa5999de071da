//! Whether all names of a statement are defined.

ghost use Rattle.std.specs.Prelude.{◌≡◌, ◌<◌, ◌^◌};
ghost use Rattle.asm_places.specs.Names as defined;
ghost use Rattle.asm_places.specs.Places.{here_of};
ghost use Rattle.asm_places.specs.Sums as sums;
ghost use Rattle.asm_contents.specs.Contents as said;
ghost use Rattle.asm_contents.specs.Values as values;

use asm_places::{Names, Places, worth_of};
use asm_statements::{Expression, Number, Operand, Statement};

fn all_known<'a>(names: &Names<'a>, expression: &Expression<'a>) -> bool
    ensures { result ≡ sums.all_known names.now expression.now }
{
    worth_of(expression.copy(), names, names.len(), 0).is_known
}

fn is_number_known<'a>(names: &Names<'a>, number: &Number<'a>) -> bool
    ensures { result ≡ values.is_number_known names.now number.now }
{
    match number {
        Number::Whole(expression) => all_known(names, expression),
        Number::Part(_half, name) => names.value(name.bytes(), names.len()).is_some(),
    }
}

fn is_operand_known<'a>(names: &Names<'a>, operand: &Operand<'a>) -> bool
    ensures { result ≡ values.is_operand_known names.now operand.now }
{
    match operand {
        Operand::Register(_register) => true,
        Operand::Number(number) => is_number_known(names, number),
        Operand::Displacement(number, _register) => is_number_known(names, number),
        Operand::Target(expression) => all_known(names, expression),
    }
}

fn are_known<'a>(names: &Names<'a>, operands: &[Operand<'a>]) -> bool
    ensures { result ≡ values.are_known names.now operands.now }
{
    for operand in operands.iter() {
        if !is_operand_known(names, operand) {
            return false;
        }
    }
    true
}

/// Whether all names of a statement are defined: those of a .seg, .equ, .space or .align at its place, others anywhere.
pub(crate) fn is_known<'a>(names: &Names<'a>, at: &Places<'a>, statement: &Statement<'a>) -> bool
    ensures { result ≡ said.is_known names.now at.now statement.now }
{
    match statement {
        Statement::Seg(expression)
        | Statement::Equ(_, expression)
        | Statement::Space(expression)
        | Statement::Align(expression) => all_known(&at.names, expression),
        Statement::Data(_width, expression) => all_known(names, expression),
        Statement::Entry(_) | Statement::Ascii(_) => true,
        Statement::Instruction(_mnemonic, operands) => are_known(names, operands.as_slice()),
    }
}
