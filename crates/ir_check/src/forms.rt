//! What an instruction's own words say of its form.
ghost use Rattle.std.specs.Prelude.{◌≡◌, Option, Some, None};
ghost use Rattle.clk_num.specs.Views.{data_of};
ghost use Rattle.clk_num.specs.Width.{same};
ghost use Rattle.ir_core.specs.Forms.{has_immediate, access_type, flags_form};
ghost use Rattle.ir_semantics.specs.TypeRules.{is_narrow, access_form, access_suffix, store_form};
ghost use Rattle.ir_check.specs.Twins.{in_range};

use clif_words::Opcode;
use clk_num::{Bits, Op, Width};
use ir_core::{Access, Flags, Ty};

/// Whether the operation has a form with an immediate: whether the table of opcodes has one for it.
pub fn takes_immediate(op: Op) -> bool
    ensures { result ≡ has_immediate op }
{
    Opcode::of_immediate(op).is_some()
}

/// Whether the number is one of its type, as that of all bits is.
pub fn is_in_range(bits: &Bits) -> bool
    ensures { result ≡ in_range (data_of bits.now) }
{
    let _value = bits.value();
    true
}

/// Whether the two types are one.
pub fn is_same_width(t: Width, u: Width) -> bool
    ensures { result ≡ same t u }
{
    t.bits() == u.bits()
}

/// Whether so many bytes are narrower than the type.
fn are_narrow(bytes: u8, ty: Ty) -> bool
    ensures { result ≡ is_narrow bytes ty }
{
    let bits = ty.width().bits();
    (bytes == 1 || bytes == 2 || bytes == 4) && 8 * (bytes as u32) < bits && bits <= 64
}

/// Whether an access is of a form.
pub fn has_access_form(access: Access) -> bool
    ensures { result ≡ access_form access }
{
    match access {
        Access::Full(_) => true,
        Access::Uload(ty, bytes) => are_narrow(bytes, ty),
        Access::Sload(ty, bytes) => are_narrow(bytes, ty),
    }
}

/// The type of the result of an access.
pub fn find_access_type(access: Access) -> Ty
    ensures { result ≡ access_type access }
{
    match access {
        Access::Full(ty) => ty,
        Access::Uload(ty, _) => ty,
        Access::Sload(ty, _) => ty,
    }
}

/// The suffix of an access that may be left out.
pub fn find_access_suffix(access: Access) -> Option<Ty>
    ensures { result ≡ access_suffix access }
{
    match access {
        Access::Full(_) => None,
        Access::Uload(_, bytes) => { if bytes == 4 { Some(Ty::I64) } else { None } }
        Access::Sload(_, bytes) => { if bytes == 4 { Some(Ty::I64) } else { None } }
    }
}

/// Whether a store of so many bytes of a value of the type is of a form.
pub fn has_store_form(narrow: Option<u8>, ty: Ty) -> bool
    ensures { result ≡ store_form narrow ty }
{
    match narrow {
        None => true,
        Some(bytes) => are_narrow(bytes, ty),
    }
}

/// Whether flags stand together.
pub fn have_flags_form(flags: Flags) -> bool
    ensures { result ≡ flags_form flags }
{
    !(flags.big && flags.little)
}
