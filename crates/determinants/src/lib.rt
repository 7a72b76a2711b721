// Six times the volume that triangles enclose, as an exact sum of signed determinants. Positions stand as bytes, as a pack's field holds
// them. The contracts cite rules/specs/Grid.antt and Volume.antt.
#![tactic(auto)]

ghost use Rattle.std.specs.Prelude.{◌≡◌, ◌+◌, ◌*◌, ◌≤◌, ◌<◌, pos, nat_abs, ◌+ℤ◌, ◌-ℤ◌, ◌*ℤ◌, length, take, get_or};
ghost use Rattle.rules.specs.Grid.{positions_from};
ghost use Rattle.rules.specs.Triangle.{triangles_of};
ghost use Rattle.rules.specs.Volume.{point_at, determinant, six_volumes};
ghost use Rattle.volume_theory.specs.Near.{Near, largest, limit64, HasCorners, corners_at, determinant_of, Measurable};

use rules::{Point, Triangle};
use wire::fields::word_at;

// Position i of a field.
fn position(field: &[u8], i: usize) -> i64
    requires { 2 * i + 1 < length field.now }
    ensures { (result ≡ get_or (positions_from field.now) i (pos 0)) × (nat_abs result ≤ 32768) }
{
    i64::from(word_at(field, 2 * i).cast_signed())
}

// Where vertex v is.
fn point(field: &[u8], v: u16) -> Point
    requires { 6 * v + 5 < length field.now }
    ensures { (result ≡ point_at (positions_from field.now) v) × Near result }
{
    let i = 3 * usize::from(v);
    Point {
        x: position(field, i),
        y: position(field, i + 1),
        z: position(field, i + 2),
    }
}

// The determinant of two by two numbers, a b and c d.
fn minor(a: i64, b: i64, c: i64, d: i64) -> i64
    requires { (nat_abs a ≤ 32768) × (nat_abs b ≤ 32768) × (nat_abs c ≤ 32768) × (nat_abs d ≤ 32768) }
    ensures { (result ≡ a *ℤ d -ℤ b *ℤ c) × (nat_abs result ≤ 2147483648) }
{
    a * d - b * c
}

// The sum of a point's positions, each times a number.
fn weighed(p: Point, a: i64, b: i64, c: i64) -> i64
    requires { Near p × (nat_abs a ≤ 2147483648) × (nat_abs b ≤ 2147483648) × (nat_abs c ≤ 2147483648) }
    ensures { (result ≡ p.x *ℤ a +ℤ p.y *ℤ b +ℤ p.z *ℤ c) × (nat_abs result ≤ largest) }
{
    p.x * a + p.y * b + p.z * c
}

// The determinant of three points.
fn determinant_of(p: Point, q: Point, r: Point) -> i64
    requires { Near p × Near q × Near r }
    ensures { (result ≡ determinant p q r) × (nat_abs result ≤ largest) }
{
    let a = minor(q.y, q.z, r.y, r.z);
    let b = minor(q.z, q.x, r.z, r.x);
    let c = minor(q.x, q.y, r.x, r.y);
    weighed(p, a, b, c)
}

// The determinant of a triangle.
fn of_corners(field: &[u8], t: Triangle) -> i64
    requires { HasCorners t field.now }
    ensures { (result ≡ determinant_of (positions_from field.now) t) × (nat_abs result ≤ largest) }
{
    let p = point(field, t.p);
    let q = point(field, t.q);
    let r = point(field, t.r);
    determinant_of(p, q, r)
}

// A sum with the determinant of one more triangle.
pub fn weigh(field: &[u8], t: Triangle, six: i64) -> i64
    requires { HasCorners t field.now × (largest + nat_abs six < limit64) }
    ensures { (result ≡ determinant_of (positions_from field.now) t +ℤ six) × (nat_abs result ≤ largest + nat_abs six) }
{
    of_corners(field, t) + six
}

// Triangle t of a list.
fn triangle_at(triangles: &[u16], t: usize) -> Triangle
    requires { 3 * t + 3 ≤ length triangles.now }
    ensures { result ≡ corners_at triangles.now t }
{
    Triangle {
        p: triangles[3 * t],
        q: triangles[3 * t + 1],
        r: triangles[3 * t + 2],
    }
}

// Six times the volume of the first n triangles of a list. The sum begins with the last one.
// (A count beside the list: the answer takes the first n triangles, `take (3 * n)`, of a buffer that is longer.)
pub fn six_of(triangles: &[u16], n: usize, field: &[u8]) -> i64
    requires { Measurable triangles.now n field.now }
    ensures { result ≡ six_volumes (positions_from field.now) (triangles_of (take (3 * n) triangles.now)) }
{
    let mut sum = 0;
    // By number, down from n: `six_volumes` of rules/specs/Volume adds each triangle to the sum of those after it.
    for t in (0..n).rev() {
        sum = weigh(field, triangle_at(triangles, t), sum);
    }
    sum
}
