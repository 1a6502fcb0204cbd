// How many pairs of segments a pass compares.
ghost use Rattle.std.specs.Prelude.{◌≡◌, ◌+◌, ◌-◌, ◌^◌, min};

/// Counts one more comparison of a pair, up to `u128::MAX`. The tree counts each pair by this call, and the grid each on a
/// border; the grid counts the pairs of a block together, and the list those of a segment at the end of its scan. That no
/// pair is compared without being counted is read, not proved.
pub fn take_up(looked: &mut u128)
    ensures { looked.new ≡ min (looked.old + 1) (2 ^ 128 - 1) }
{
    *looked = looked.saturating_add(1);
}
