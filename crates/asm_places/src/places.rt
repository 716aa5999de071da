//! What stands where: the names, the segments and the addresses that lines make.

ghost use Rattle.std.specs.Prelude.{◌≡◌, ◌<◌, ◌≤◌, ◌+◌, ◌-◌, ◌^◌, ◌&&◌, false, OnOk};
ghost use Rattle.asm_places.specs.FirstPass.{defines_twice};
ghost use Rattle.asm_places.specs.Places as said;
ghost use Rattle.asm_places.specs.Ranges.{most_zeros};
ghost use Rattle.asm_places.specs.Keeping.{IsSmall, HaveAtMost, AddsTo, AddsOptional};

use crate::names::Names;
use crate::ranges::{base_of, in_range, padding_of, space_of};
use crate::segments::SegmentLines;
use crate::sum::{Sum, worth_of};
use asm_statements::{Expression, Spelling, Statement, Width};
use std::alloc::{AllocError, Global};

/// A segment of a source.
#[derive(Clone, Copy, Debug, PartialEq, Eq)]
pub struct SegmentLine {
    /// The number of its `.seg` line, from 1.
    pub line: u32,
    /// Its first address.
    pub base: u64,
    /// How many bytes it has.
    pub size: u64,
}

/// The names and segments of a source.
#[derive(Drop)]
pub struct Places<'a> {
    /// The names with their values, in order of definition.
    pub names: Names<'a>,
    /// The name of the first instruction, where there is an `.entry`.
    pub entry: Option<Spelling<'a>>,
    /// How many zeros the .space and .align lines have in all.
    pub zeros: u32,
    /// The segments, in order.
    pub segments: SegmentLines,
}

/// An .equ's value, or 0 where its expression is refused.
fn settled(sum: Sum) -> i128
    ensures value { result ≡ said.settled sum }
    ensures small { IsSmall result }
{
    if sum.is_known {
        in_range(sum.value).unwrap_or(0)
    } else {
        0
    }
}

/// A .seg's address, or 0 where its expression is refused.
fn settled_base(sum: Sum) -> u64
    ensures { result ≡ said.settled_base sum }
{
    if sum.is_known {
        base_of(sum.value).unwrap_or(0)
    } else {
        0
    }
}

/// How many zeros a .space has; 0 where its expression is refused.
fn settled_space(zeros: u32, sum: Sum) -> u32
    requires { zeros ≤ most_zeros }
    ensures count { result ≡ said.settled_space zeros sum }
    ensures most { zeros + result ≤ most_zeros }
{
    if sum.is_known {
        space_of(zeros, sum.value).unwrap_or(0)
    } else {
        0
    }
}

/// How many zeros an .align has; 0 where its expression is refused.
fn settled_padding(zeros: u32, at: u128, sum: Sum) -> u32
    requires { zeros ≤ most_zeros }
    ensures count { result ≡ said.settled_padding zeros at sum }
    ensures most { zeros + result ≤ most_zeros }
{
    if sum.is_known {
        padding_of(zeros, at, sum.value).unwrap_or(0)
    } else {
        0
    }
}

/// How many bytes a number has.
fn width_size(width: Width) -> u64
    ensures { result ≡ said.width_size width }
{
    match width {
        Width::Word => 4,
        Width::Doubleword | Width::BigEndianDoubleword => 8,
    }
}

impl<'a> Places<'a> {
    /// Before the first line. Takes no memory.
    pub fn new(alloc: Global) -> Places<'a>
        ensures { result ≡ said.no_places }
    {
        Places {
            names: Names::new(alloc),
            entry: None,
            zeros: 0,
            segments: SegmentLines::new(alloc),
        }
    }

    /// The address of the next statement; 0 before the first segment.
    pub fn here(&self) -> u128
        ensures { result ≡ said.here_of self.now }
    {
        match self.segments.address() {
            Some(address) => address,
            None => 0,
        }
    }

    /// What an expression is worth here, by the names so far.
    fn worth(&self, expression: Expression<'a>) -> Sum
        requires { said.here_of self.now < 2 ^ 65 }
        ensures { result ≡ said.worth self.now expression.entry }
    {
        worth_of(
            expression,
            &self.names,
            self.names.len(),
            self.here() as i128,
        )
    }

    /// The address of a segment that begins here; 0 where its expression is refused.
    pub fn base(&self, expression: &Expression<'a>) -> u64
        requires { said.here_of self.now < 2 ^ 65 }
        ensures { result ≡ said.settled_base (said.worth self.now expression.now) }
    {
        settled_base(self.worth(expression.copy()))
    }

    /// Defines a label with the address of what stands behind it.
    pub(crate) fn add_label(&mut self, label: &Option<Spelling<'a>>) -> Result<(), AllocError>
        requires new { defines_twice label.now self.old ≡ false }
        requires small { said.here_of self.old < 2 ^ 65 }
        ensures { OnOk result (self.new ≡ said.after_label label.now self.old) }
    {
        match label {
            Some(name) => {
                let here = self.here() as i128;
                self.names.define(name.bytes(), here)
            }
            None => Ok(()),
        }
    }

    /// Adds a segment.
    fn add_segment(&mut self, line: u32, base: u64) -> Result<(), AllocError>
        ensures { OnOk result (self.new ≡ said.with_segment line base self.old) }
    {
        self.segments.push(SegmentLine {
            line,
            base,
            size: 0,
        })
    }

    /// Adds zeros.
    fn add_zeros(&mut self, count: u32)
        requires most { self.old.zeros + count ≤ most_zeros }
        requires room { HaveAtMost (2 ^ 64 - 1 - count) self.old.segments }
        ensures { self.new ≡ said.with_zeros count self.old }
    {
        self.zeros += count;
        self.segments.grow(u64::from(count));
    }

    /// Adds a statement.
    fn add_statement(&mut self, line: u32, statement: Statement<'a>) -> Result<(), AllocError>
        requires { AddsTo statement self.old }
        ensures { OnOk result (self.new ≡ said.after_statement line statement.entry self.old) }
    {
        match statement {
            Statement::Seg(expression) => {
                let base = self.base(&expression);
                self.add_segment(line, base)
            }
            Statement::Entry(name) => {
                self.entry = Some(name);
                Ok(())
            }
            Statement::Equ(name, expression) => {
                let value = settled(self.worth(expression));
                self.names.define(name.bytes(), value)
            }
            Statement::Data(width, _expression) => {
                self.segments.grow(width_size(width));
                Ok(())
            }
            Statement::Ascii(text) => {
                self.segments.grow(text.bytes().len() as u64);
                Ok(())
            }
            Statement::Space(expression) => {
                let count = settled_space(self.zeros, self.worth(expression));
                self.add_zeros(count);
                Ok(())
            }
            Statement::Align(expression) => {
                let count = settled_padding(self.zeros, self.here(), self.worth(expression));
                self.add_zeros(count);
                Ok(())
            }
            Statement::Instruction(_mnemonic, _operands) => {
                self.segments.grow(4);
                Ok(())
            }
        }
    }

    /// Adds the statement of a line, where it has one.
    pub fn add_optional(
        &mut self,
        line: u32,
        statement: Option<Statement<'a>>,
    ) -> Result<(), AllocError>
        requires { AddsOptional statement self.old }
        ensures { OnOk result (self.new ≡ said.after_optional line statement.entry self.old) }
    {
        match statement {
            Some(statement) => self.add_statement(line, statement),
            None => Ok(()),
        }
    }
}
