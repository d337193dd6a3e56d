// Sums over all pairs.
ghost use Rattle.std.specs.Prelude.{◌≡◌, ◌*◌, ◌%◌, ◌^◌, ◌<◌, ◌≤◌, length};
ghost use Rattle.month_end.specs.Program.{column};

// The sum of one of the seven numbers over so many rows; past 2^64 it starts again from 0.
pub(crate) fn over(rows: &[u64], pairs: usize, place: usize) -> u64
    requires { (pairs * 7 ≤ length rows.now) × (pairs ≤ 512) × (place < 7) }
    ensures { result ≡ column place pairs rows.now % 2 ^ 64 }
{
    let mut sum: u64 = 0;
    for i in 0..pairs {
        sum = sum.wrapping_add(rows[i * 7 + place]);
    }
    sum
}
