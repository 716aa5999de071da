//! The values of operands in text.

ghost use Rattle.std.specs.Prelude.{◌≡◌, ◌++◌, ◌∷◌, [], ◌<◌, ◌≤◌, ◌^◌, ◌&&◌, false, length, IfSome};
ghost use Rattle.ppc_ops.specs.Fitting.{IsSigned, IsSignedMultiple, IsDisplacement, IsCompared};
ghost use Rattle.asm_forms.specs.Values as values;

use arrayvec::ArrayVec;
use std::marker::Model;

/// The values of an instruction's operands in the order in which they stand in text, at most ten. A displacement and its
/// register are two. Contracts see the list of them.
#[derive(Drop)]
pub struct Values {
    items: ArrayVec<i128, 10>,
}

impl Model for Values {
    ghost use Rattle.std.specs.Prelude.{List, ℤ};

    ghost Value = { List ℤ };

    ghost view = { λ v. v.items.items };
}

impl Values {
    /// No values.
    pub fn new() -> Values
        ensures { result ≡ [] }
    {
        Values {
            items: ArrayVec::new(),
        }
    }

    /// Adds a value at the end.
    pub fn push(&mut self, value: i128)
        requires { length self.old < 10 }
        ensures { self.new ≡ self.old ++ value ∷ [] }
    {
        self.items.push(value);
    }

    /// The values, in order.
    pub fn as_slice(&self) -> &[i128]
        ensures { result.now ≡ self.now }
    {
        self.items.as_slice()
    }

    /// The value at a place, or 0 where no more values stand.
    #[tactic(auto, unfolding(crate::specs::Values::value_at))]
    fn at(&self, place: usize) -> i128
        ensures { result ≡ values.value_at self.now place }
    {
        self.as_slice().get(place).copied().unwrap_or(0)
    }

    /// The number of at most 16 bits at a place.
    #[tactic(auto, unfolding(crate::specs::Values::number_of))]
    pub(crate) fn half(&self, place: usize, bits: u8) -> Option<u16>
        requires { bits ≤ 16 }
        ensures value { result ≡ values.number_of bits (values.value_at self.now place) }
        ensures fits { IfSome result (λ n. n < 2 ^ bits) }
    {
        let value = self.at(place);
        if 0 <= value && value < i128::from(1u32 << bits) {
            Some(value as u16)
        } else {
            None
        }
    }

    /// The number of at most 8 bits at a place.
    pub(crate) fn number(&self, place: usize, bits: u8) -> Option<u8>
        requires { bits ≤ 8 }
        ensures value { result ≡ values.number_of bits (values.value_at self.now place) }
        ensures fits { IfSome result (λ n. n < 2 ^ bits) }
    {
        let value = self.half(place, bits)?;
        Some(value as u8)
    }

    /// The signed number of 16 bits at a place.
    #[tactic(auto, unfolding(crate::specs::Values::signed_number))]
    pub(crate) fn signed(&self, place: usize) -> Option<i16>
        ensures value { result ≡ values.signed_number 16 (values.value_at self.now place) }
        ensures fits { IfSome result (λ z. IsSigned 16 z) }
    {
        let value = self.at(place);
        if -0x8000 <= value && value < 0x8000 {
            Some(value as i16)
        } else {
            None
        }
    }

    /// The displacement of 16 bits at a place, where it is scaled a multiple of 4.
    #[tactic(auto, unfolding(crate::specs::Values::displacement, crate::specs::Values::signed_number, crate::specs::Values::signed_multiple))]
    pub(crate) fn displacement(&self, place: usize, scaled: bool) -> Option<i16>
        ensures value { result ≡ values.displacement scaled (values.value_at self.now place) }
        ensures fits { IfSome result (λ z. IsDisplacement scaled z) }
    {
        let value = self.signed(place)?;
        if scaled && value % 4 != 0 {
            None
        } else {
            Some(value)
        }
    }

    /// The number of 16 bits at a place, signed or not.
    #[tactic(auto, unfolding(crate::specs::Values::compared))]
    pub(crate) fn compared(&self, place: usize, unsigned: bool) -> Option<i32>
        ensures value { result ≡ values.compared unsigned (values.value_at self.now place) }
        ensures fits { IfSome result (λ z. IsCompared unsigned z) }
    {
        if unsigned {
            Some(i32::from(self.half(place, 16)?))
        } else {
            Some(i32::from(self.signed(place)?))
        }
    }

    /// The distance of a branch at a place: a signed number of 16 bits that is a multiple of 4.
    #[tactic(auto, unfolding(crate::specs::Values::signed_multiple))]
    pub(crate) fn branch_distance(&self, place: usize) -> Option<i32>
        ensures value { result ≡ values.signed_multiple 16 (values.value_at self.now place) }
        ensures fits { IfSome result (λ z. IsSignedMultiple 16 z) }
    {
        let value = self.at(place);
        if -0x8000 <= value && value < 0x8000 && value % 4 == 0 {
            Some(value as i32)
        } else {
            None
        }
    }

    /// The distance of a jump at a place: a signed number of 26 bits that is a multiple of 4.
    #[tactic(auto, unfolding(crate::specs::Values::signed_multiple))]
    pub(crate) fn jump_distance(&self, place: usize) -> Option<i32>
        ensures value { result ≡ values.signed_multiple 26 (values.value_at self.now place) }
        ensures fits { IfSome result (λ z. IsSignedMultiple 26 z) }
    {
        let value = self.at(place);
        if -0x200_0000 <= value && value < 0x200_0000 && value % 4 == 0 {
            Some(value as i32)
        } else {
            None
        }
    }

    /// Whether the value at a place is 1; nothing where it is neither 0 nor 1.
    #[tactic(auto, unfolding(crate::specs::Values::flag))]
    pub(crate) fn flag(&self, place: usize) -> Option<bool>
        ensures { result ≡ values.flag (values.value_at self.now place) }
    {
        match self.at(place) {
            0 => Some(false),
            1 => Some(true),
            _ => None,
        }
    }

    /// Whether the value at a place is 1, which it is never where `never` says so.
    #[tactic(auto, unfolding(crate::specs::Values::flag_unless))]
    pub(crate) fn flag_unless(&self, place: usize, never: bool) -> Option<bool>
        ensures value { result ≡ values.flag_unless never (values.value_at self.now place) }
        ensures fits { IfSome result (λ b. (never && b) ≡ false) }
    {
        let flag = self.flag(place)?;
        if never && flag { None } else { Some(flag) }
    }
}
