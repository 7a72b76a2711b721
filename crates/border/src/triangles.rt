// The triangle buffer.
ghost use Rattle.std.specs.Prelude.{◌≡◌, ◌+◌, ◌*◌, ◌≤◌, ◌<◌, length};
ghost use Rattle.rules.specs.Limits.{max_triangles};
ghost use Rattle.rules.specs.Build.{with_triangle};

use rules::Triangle;

/// Writes triangle n into the buffer.
pub fn put_triangle(triangles: &mut [u16], n: usize, t: Triangle)
    requires { (3 * n + 3 ≤ length triangles.old) × (n < max_triangles) }
    ensures { triangles.new ≡ with_triangle n t triangles.old }
{
    triangles[3 * n..3 * n + 3].copy_from_slice(&[t.p, t.q, t.r]);
}
