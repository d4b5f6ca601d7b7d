//! Tests of one type, where `x` is the width of a register.

ghost use Rattle.std.specs.Prelude.{◌≡◌, ◌≤◌};
ghost use Rattle.gi_mir.specs.Types as types;

use crate::entry::InMemory;
use crate::typing::Class;
use gi_llt::Llt;

/// Whether two types are the same.
pub fn same_type(a: Llt, b: Llt) -> bool
    ensures { result ≡ types.same_type a b }
{
    match (a, b) {
        (Llt::Scalar(m), Llt::Scalar(n)) => m == n,
        (Llt::Pointer, Llt::Pointer) => true,
        _ => false,
    }
}

/// Whether a type is a pointer.
pub fn is_pointer(ty: Llt) -> bool
    ensures { result ≡ types.is_pointer ty }
{
    match ty {
        Llt::Scalar(_) => false,
        Llt::Pointer => true,
    }
}

/// The bits of a scalar, and 0 for a pointer.
pub fn scalar_bits(ty: Llt) -> u16
    ensures { result ≡ types.scalar_bits ty }
{
    match ty {
        Llt::Scalar(n) => n,
        Llt::Pointer => 0,
    }
}

/// Whether a type is a scalar of up to twice the width of a register.
pub fn is_scalar(x: u16, ty: Llt) -> bool
    requires { x ≤ 64 }
    ensures { result ≡ types.is_scalar x ty }
{
    match ty {
        Llt::Scalar(n) => 0 < n && n <= 2 * x,
        Llt::Pointer => false,
    }
}

/// Whether a type is a scalar or a pointer.
pub fn is_any(x: u16, ty: Llt) -> bool
    requires { x ≤ 64 }
    ensures { result ≡ types.is_any x ty }
{
    is_pointer(ty) || is_scalar(x, ty)
}

/// Whether a type is a scalar with a bit beside the sign.
pub fn is_wide(x: u16, ty: Llt) -> bool
    requires { x ≤ 64 }
    ensures { result ≡ types.is_wide x ty }
{
    is_scalar(x, ty) && 1 < scalar_bits(ty)
}

/// Whether a type is a scalar of a register's width.
pub fn is_register(x: u16, ty: Llt) -> bool
    requires { x ≤ 64 }
    ensures { result ≡ types.is_register x ty }
{
    is_scalar(x, ty) && scalar_bits(ty) == x
}

/// Whether a type is a scalar of one bit.
pub fn is_bit(ty: Llt) -> bool
    ensures { result ≡ types.is_bit ty }
{
    scalar_bits(ty) == 1
}

/// Whether a type is one of a condition.
pub fn is_condition(x: u16, ty: Llt) -> bool
    requires { x ≤ 64 }
    ensures { result ≡ types.is_condition x ty }
{
    is_bit(ty) || is_register(x, ty)
}

/// Whether a type is of whole bytes, two or more, whose order can be turned.
pub fn is_swappable(x: u16, ty: Llt) -> bool
    requires { x ≤ 64 }
    ensures { result ≡ types.is_swappable x ty }
{
    let bits = scalar_bits(ty);
    is_scalar(x, ty) && (bits == 16 || bits == 32 || bits == 64 || bits == 128)
}

/// Whether values of a type can be rotated.
pub fn is_rotatable(x: u16, ty: Llt) -> bool
    requires { x ≤ 64 }
    ensures { result ≡ types.is_rotatable x ty }
{
    is_scalar(x, ty) && scalar_bits(ty) == 8 || is_swappable(x, ty)
}

/// Whether a type is of a class.
pub fn is_of(x: u16, class: Class, ty: Llt) -> bool
    requires { x ≤ 64 }
    ensures { result ≡ types.is_of x class ty }
{
    match class {
        Class::Any => is_any(x, ty),
        Class::Pointer => is_pointer(ty),
        Class::Scalar => is_scalar(x, ty),
        Class::Wide => is_wide(x, ty),
        Class::Register => is_register(x, ty),
        Class::Bit => is_bit(ty),
        Class::Condition => is_condition(x, ty),
        Class::Swappable => is_swappable(x, ty),
        Class::Rotatable => is_rotatable(x, ty),
    }
}

/// Whether a type is of so many bits, or a pointer where these are a register's.
pub fn has_size(x: u16, bits: u16, ty: Llt) -> bool
    ensures { result ≡ types.has_size x bits ty }
{
    match ty {
        Llt::Scalar(n) => n == bits,
        Llt::Pointer => x == bits,
    }
}

/// Whether a value may have a type in memory.
pub fn is_in_memory(x: u16, memory: InMemory, ty: Llt) -> bool
    requires { x ≤ 64 }
    ensures { result ≡ types.is_in_memory x memory ty }
{
    match memory {
        InMemory::Nothing => false,
        InMemory::Value => is_pointer(ty) || is_rotatable(x, ty),
        InMemory::Extended => is_rotatable(x, ty) && scalar_bits(ty) <= x,
        InMemory::Bits(bits) => has_size(x, bits, ty),
    }
}
