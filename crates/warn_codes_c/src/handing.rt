//! Writes rows into a caller's buffer.
ghost use Rattle.std.specs.Prelude.{◌≡◌, ◌≤◌, ◌++◌, drop, length};
ghost use Rattle.warn_codes_c.specs.Handing.{handed, fits};

/// Writes the rows to the start of a buffer that has room for them.
pub fn place<T: Copy>(rows: &[T], out: &mut [T])
    requires { length rows.now ≤ length out.old }
    ensures { out.new ≡ rows.now ++ drop (length rows.now) out.old }
{
    out[..rows.len()].copy_from_slice(rows);
}

/// Writes the rows to the start of the buffer `out`, if it has room for all of them, and returns
/// whether it has. If not, `out` is not changed.
pub fn hand_out<T: Copy>(rows: &[T], out: &mut [T]) -> bool
    ensures fits { result ≡ fits rows.now out.old }
    ensures out { out.new ≡ handed rows.now out.old }
{
    let fits = rows.len() <= out.len();
    if fits {
        place(rows, out);
    }
    fits
}
