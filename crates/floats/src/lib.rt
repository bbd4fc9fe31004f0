// Single precision (request No. 2): a pattern of 32 bits as a float, and the power of a complex sample.
//
// An f32 of this language has one NaN, so a NaN's pattern cannot be kept in one: who wants every
// pattern's bits takes the pattern.
#![tactic(auto)]

ghost use Rattle.std.specs.Prelude.{◌≡◌};
ghost use Rattle.floats.specs.Floats.{float_of, finite_of, squares, power_of};

// The float of a pattern; for each NaN's pattern the one NaN.
pub fn float_of(n: u32) -> f32
    ensures { result ≡ float_of n }
{
    if n % 2147483648 > 2139095040 {
        let z: f32 = 0.0;
        z / z
    } else {
        f32::from_bits(n)
    }
}

// Neither an infinity nor a NaN.
pub fn finite(x: f32) -> bool
    ensures { result ≡ finite_of x }
{
    let top = f32::from_bits(0x7f80_0000);
    -top < x && x < top
}

// Real times real, imaginary times imaginary, then the sum, each rounded once: no multiply-add.
pub fn squares_of(re: f32, im: f32) -> f32
    ensures { result ≡ squares re im }
{
    re * re + im * im
}

// The power of the sample that these two patterns are, as a pattern; none where a part or the power is not
// finite. A power is finite only where both parts are.
pub fn power_of(re: u32, im: u32) -> Option<u32>
    ensures { result ≡ power_of re im }
{
    let p = squares_of(float_of(re), float_of(im));
    if finite(p) {
        Some(f32::to_bits(p))
    } else {
        None
    }
}
