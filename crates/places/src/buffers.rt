// Filling lent buffers.
ghost use Rattle.std.specs.Prelude.{◌≡◌, ◌++◌, ◌≤◌, length, drop, replicate};
ghost use Rattle.rules.specs.Buffer.{zeroed};

// The first n numbers become x.
pub fn fill(xs: &mut [u16], n: usize, x: u16)
    requires { n ≤ length xs.old }
    ensures { xs.new ≡ replicate n x ++ drop n xs.old }
{
    xs[..n].fill(x);
}

// The first n numbers become zero.
pub fn clear(xs: &mut [u16], n: usize)
    requires { n ≤ length xs.old }
    ensures { xs.new ≡ zeroed n xs.old }
{
    xs[..n].fill(0);
}

// All bytes become zero.
pub fn clear_bytes(xs: &mut [u8])
    ensures { xs.new ≡ zeroed (length xs.old) xs.old }
{
    xs.fill(0);
}
