// Eight bytes of a field at a time.
ghost use Rattle.std.specs.Prelude.{◌≡◌, ◌+◌, ◌≤◌, length};
ghost use Rattle.room.specs.Laid.{laid};
ghost use Rattle.bits.specs.Digits.{digits};

// The eight bytes of `x` into the field from `at` on: for a compiler this is one store.
pub(crate) fn put_eight(x: u64, field: &mut [u8], at: usize)
    requires { at + 8 ≤ length field.old }
    ensures { field.new ≡ laid field.old at (digits 256 8 x) }
{
    field[at..at + 8].copy_from_slice(&x.to_le_bytes());
}
