// What a read in memory gives.
ghost use Rattle.std.specs.Prelude.{◌≡◌, ◌++◌, ◌<◌, [], length, min, max, take, drop};

// Gives the first bytes of what is left: as many as fit, but at most `most`, and at
// least one if one is left.
pub(crate) fn give(left: &[u8], most: usize, into: &mut [u8]) -> usize
    requires { 0 < length into.old }
    ensures count { result ≡ min (length into.new) (min (max 1 most) (length left.now)) }
    ensures end { result ≡ 0 → left.now ≡ [] }
    ensures given { left.now ≡ take result into.new ++ drop result left.now }
{
    let count = into.len().min(most.max(1)).min(left.len());
    let (given, _) = left.split_at(count);
    let (into, _) = into.split_at_mut(count);
    into.copy_from_slice(given);
    count
}
