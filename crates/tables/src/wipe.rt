// Tables are wiped before they are filled, and where what was to fill them is refused.
ghost use Rattle.std.specs.Prelude.{◌≡◌, length, replicate};

// Puts the same value in every place.
pub fn wipe_table<T: Copy>(table: &mut [T], zero: T)
    ensures { table.new ≡ replicate (length table.old) zero }
{
    // `fill` would ask of every `T` that its clone cannot fail.
    for place in table.iter_mut() {
        *place = zero;
    }
}
