// What one lent buffer holds, copied to the front of another.
#![tactic(auto)]

ghost use Rattle.std.specs.Prelude.{◌≡◌, ◌≤◌, ◌++◌, min, length, take, drop};

// Copies `from` to the front of `to`, or as much of it as there is room for, and answers how much. The rest of `to` stays as it is.
pub fn copy<T: Copy>(from: &[T], to: &mut [T]) -> usize
    ensures size { result ≡ min (length from.now) (length to.old) }
    ensures whole { length from.now ≤ length to.old → to.new ≡ from.now ++ drop (length from.now) to.old }
    ensures cut { length to.old ≤ length from.now → to.new ≡ take (length to.old) from.now }
{
    let count = from.len().min(to.len());
    to[..count].copy_from_slice(&from[..count]);
    count
}
