//! Values that are put in the place of others.

ghost use Rattle.std.specs.Prelude.{◌≡◌};

/// Puts this in the place of what is thrown away.
pub(crate) fn put<T: Drop>(place: &mut T, value: T)
    ensures { place.new ≡ value }
{
    *place = value;
}
