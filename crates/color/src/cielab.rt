// CIELAB: the distance of two colours, and the ways to sRGB and back, formula for formula in the order of scikit-image's `rgb2lab` and `lab2rgb`.
ghost use Rattle.std.specs.Prelude.{◌≡◌, ◌+◌, ◌*◌, ◌<◌, ◌&&◌, length};
ghost use Rattle.std.specs.Float.Ieee.{lt, le};
ghost use Rattle.color.specs.Lab.{entry, within, dist2, distance, dot, mat_vec, lab_f, lab_f_inv, lab_of_xyz, xyz_of_lab, rgb8_to_lab, lab_to_rgb8};

use crate::{Lab, Rgb8};
use channel::{byte, decoded};

// Linear sRGB to XYZ.
const XYZ_FROM_RGB: [[f64; 3]; 3] = [
    [0.412453, 0.357580, 0.180423],
    [0.212671, 0.715160, 0.072169],
    [0.019334, 0.119193, 0.950227],
];

// XYZ to linear sRGB.
const RGB_FROM_XYZ: [[f64; 3]; 3] = [
    [3.2404813432005266, -1.5371515162713183, -0.4985363261688878],
    [-0.9692549499965682, 1.8759900014898907, 0.04155592655829283],
    [
        0.055646639135177166,
        -0.20404133836651123,
        1.0573110696453443,
    ],
];

// The white D65 of the 2 degree observer.
const WHITE: [f64; 3] = [0.95047, 1.0, 1.08883];

// The edge up to which the cube root gives way to a line, that line's slope and shift, and the edge of the inverse.
const EDGE: f64 = 0.008856;

const SLOPE: f64 = 7.787;

const SHIFT: f64 = 16.0 / 116.0;

const EDGE_INV: f64 = 0.2068966;

// Whether x is from lo to hi, and no NaN.
pub fn between(lo: f64, hi: f64, x: f64) -> bool
    ensures { result ≡ (le lo x && le x hi) }
{
    lo <= x && x <= hi
}

// Whether a part of a colour is in range: no NaN, and not beyond 1024 either way.
pub fn within(x: f64) -> bool
    ensures { result ≡ within x }
{
    between(-1024.0, 1024.0, x)
}

// The colour i of a list with three doubles for each colour.
pub fn entry(list: &[f64], i: usize) -> Lab
    requires { 3 * i + 2 < length list.now }
    ensures { result ≡ entry list.now i }
{
    Lab {
        l: list[3 * i],
        a: list[3 * i + 1],
        b: list[3 * i + 2],
    }
}

// The square of the distance: three squares summed left to right.
pub fn dist2(p: Lab, q: Lab) -> f64
    ensures { result ≡ dist2 p q }
{
    let d0 = p.l - q.l;
    let d1 = p.a - q.a;
    let d2 = p.b - q.b;
    d0 * d0 + d1 * d1 + d2 * d2
}

// The distance of two colours.
pub fn distance(p: Lab, q: Lab) -> f64
    ensures { result ≡ distance p q }
{
    roots::sqrt(dist2(p, q))
}

// Whether two colours are nearer to one another than `limit`.
pub fn closer_than(p: Lab, q: Lab, limit: f64) -> bool
    ensures { result ≡ lt (distance p q) limit }
{
    roots::sqrt_below(dist2(p, q), limit)
}

// The product of a row with a vector, summed left to right.
fn dot(v: [f64; 3], m: [f64; 3]) -> f64
    ensures { result ≡ dot v m }
{
    v[0] * m[0] + v[1] * m[1] + v[2] * m[2]
}

// The product of a matrix with a vector.
fn mat_vec(m: [[f64; 3]; 3], v: [f64; 3]) -> [f64; 3]
    ensures { result ≡ mat_vec m v }
{
    let [x, y, z] = m;
    [dot(v, x), dot(v, y), dot(v, z)]
}

// CIELAB's function of a part of XYZ.
fn lab_f(t: f64) -> f64
    ensures { result ≡ lab_f t }
{
    if t > EDGE {
        roots::cbrt(t)
    } else {
        SLOPE * t + SHIFT
    }
}

// Its inverse.
fn lab_f_inv(t: f64) -> f64
    ensures { result ≡ lab_f_inv t }
{
    if t > EDGE_INV {
        t * t * t
    } else {
        (t - SHIFT) / SLOPE
    }
}

// XYZ to CIELAB.
fn lab_of_xyz(v: [f64; 3]) -> Lab
    ensures { result ≡ lab_of_xyz v }
{
    let fx = lab_f(v[0] / WHITE[0]);
    let fy = lab_f(v[1] / WHITE[1]);
    let fz = lab_f(v[2] / WHITE[2]);
    Lab {
        l: 116.0 * fy - 16.0,
        a: 500.0 * (fx - fy),
        b: 200.0 * (fy - fz),
    }
}

// CIELAB to XYZ. A z below 0 is taken for 0.
fn xyz_of_lab(c: Lab) -> [f64; 3]
    ensures { result ≡ xyz_of_lab c }
{
    let y = (c.l + 16.0) / 116.0;
    let x = c.a / 500.0 + y;
    let mut z = y - c.b / 200.0;
    if z < 0.0 {
        z = 0.0;
    }
    [
        lab_f_inv(x) * WHITE[0],
        lab_f_inv(y) * WHITE[1],
        lab_f_inv(z) * WHITE[2],
    ]
}

// A colour of sRGB as one of CIELAB.
pub fn rgb8_to_lab_one(c: Rgb8) -> Lab
    ensures { result ≡ rgb8_to_lab c }
{
    let lin = [decoded(c.r), decoded(c.g), decoded(c.b)];
    lab_of_xyz(mat_vec(XYZ_FROM_RGB, lin))
}

// A colour of CIELAB as one of sRGB, cut to the range of a byte.
pub fn lab_to_rgb8_one(c: Lab) -> Rgb8
    ensures { result ≡ lab_to_rgb8 c }
{
    let [r, g, b] = mat_vec(RGB_FROM_XYZ, xyz_of_lab(c));
    Rgb8 {
        r: byte(r),
        g: byte(g),
        b: byte(b),
    }
}
