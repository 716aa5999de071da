//! What a load or store of a register moves.

ghost use Rattle.std.specs.Prelude.{◌≡◌};
ghost use Rattle.storage_ops.specs.Forms as forms;

/// What a load or store of a register moves.
#[derive(Clone, Copy, Debug, PartialEq, Eq)]
pub struct AccessForm {
    /// How many bytes: 1, 2, 4 or 8.
    pub size: u8,
    /// Whether they are stored, else loaded.
    pub store: bool,
    /// Whether a loaded number is extended by its sign, else by zeros.
    pub signed: bool,
    /// Whether the bytes are taken in the other order.
    pub reversed: bool,
    /// Whether the effective address is put into RA.
    pub update: bool,
    /// Whether caches are not used.
    pub inhibited: bool,
    /// Whether a reservation is made or asked for.
    pub reserved: bool,
}

/// A load of so many bytes, which are extended by zeros.
pub fn loads(size: u8) -> AccessForm
    ensures { result ≡ forms.loads size }
{
    AccessForm {
        size,
        store: false,
        signed: false,
        reversed: false,
        update: false,
        inhibited: false,
        reserved: false,
    }
}

/// A store of so many bytes.
pub fn stores(size: u8) -> AccessForm
    ensures { result ≡ forms.stores size }
{
    AccessForm {
        store: true,
        ..loads(size)
    }
}

/// The form, whose loaded number is extended by its sign.
pub fn with_sign(form: AccessForm) -> AccessForm
    ensures { result ≡ forms.with_sign form }
{
    AccessForm {
        signed: true,
        ..form
    }
}

/// The form, whose bytes are taken in the other order.
pub fn in_reverse(form: AccessForm) -> AccessForm
    ensures { result ≡ forms.in_reverse form }
{
    AccessForm {
        reversed: true,
        ..form
    }
}

/// The form, which puts the effective address into RA.
pub fn with_update(form: AccessForm) -> AccessForm
    ensures { result ≡ forms.with_update form }
{
    AccessForm {
        update: true,
        ..form
    }
}

/// The form, which does not use caches.
pub fn past_caches(form: AccessForm) -> AccessForm
    ensures { result ≡ forms.past_caches form }
{
    AccessForm {
        inhibited: true,
        ..form
    }
}

/// The form, which makes a reservation or asks for one.
pub fn with_reservation(form: AccessForm) -> AccessForm
    ensures { result ≡ forms.with_reservation form }
{
    AccessForm {
        reserved: true,
        ..form
    }
}
