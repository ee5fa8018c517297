//! How keys are hashed: a body's parts of seven bytes are the coefficients of a polynomial, whose
//! value at a secret point, modulo the prime 2^61 - 1, is the hash.
ghost use Rattle.std.specs.Prelude.{◌≡◌, ◌+◌, ◌*◌, ◌<◌, ◌^◌, fold, drop};
ghost use Rattle.xa_cache.specs.Hashing.{folded, hashed, hasher_at, seeded_by};
ghost use Rattle.xa_cache.specs.Hashing.{number_of_part, with_four, with_fours, with_part, with_parts};

use std::hash::{BuildHasher, DefaultHasher, Hasher};

/// One more than the prime. Each part is less.
const TWO_TO_61: u128 = 1 << 61;

/// Hashers that begin with a secret: who doesn't know it can't choose bodies of one hash.
#[derive(Clone, Copy)]
pub(crate) struct Seeded {
    /// The hasher before the first part of a body.
    start: Polynomial,
}

/// A hasher: the point and its powers, by which four parts are taken at once, and the polynomial's
/// value so far.
#[derive(Clone, Copy)]
pub(crate) struct Polynomial {
    /// The secret point.
    point: u64,
    /// The point's square.
    square: u64,
    /// The point's third power.
    cube: u64,
    /// The point's fourth power.
    fourth: u64,
    /// The polynomial's value so far.
    value: u64,
}

impl Seeded {
    /// Hashers whose point follows from the secret.
    pub(crate) fn new(secret: &[u8]) -> Seeded
        ensures { result ≡ seeded_by secret.now }
    {
        let mut point = DefaultHasher::new();
        point.write(secret);
        let mut value = point;
        value.write(secret);
        Seeded {
            start: Polynomial::at(point.finish() / 8, value.finish() / 8),
        }
    }
}

impl BuildHasher for Seeded {
    type Hasher = Polynomial;

    ghost build_hasher = { λ seeded. seeded.start };

    fn build_hasher(&self) -> Polynomial {
        self.start
    }
}

impl Polynomial {
    /// The hasher at that point, which begins with that value.
    fn at(point: u64, value: u64) -> Polynomial
        ensures { result ≡ hasher_at point value }
    {
        let square = with_part(point, point, 0);
        let cube = with_part(point, square, 0);
        Polynomial {
            point,
            square,
            cube,
            fourth: with_part(point, cube, 0),
            value,
        }
    }

    /// The value after this one and four parts. Each is multiplied by its power of the point, so that no
    /// product waits for another.
    fn with_four(&self, value: u64, parts: &[[u8; 7]; 4]) -> u64
        ensures { result ≡ with_four self.now value parts.now }
    {
        let [a, b, c, d] = parts;
        let sum = product(value, self.fourth)
            + product(number_of_seven(a), self.cube)
            + product(number_of_seven(b), self.square)
            + product(number_of_seven(c), self.point)
            + product(number_of_seven(d), 1);
        // Nothing is cut: folded twice, a number below 2^128 is below 2^61 + 64.
        folded(folded(sum)) as u64
    }

    /// The value after these fours of parts.
    fn with_fours(&self, fours: &[[[u8; 7]; 4]]) -> u64
        ensures { result ≡ with_fours self.now fours.now }
    {
        fours
            .iter()
            .fold(self.value, |value, parts| self.with_four(value, parts))
    }
}

impl Hasher for Polynomial {
    ghost write = { hashed };

    ghost finish = { λ hasher. hasher.value };

    fn finish(&self) -> u64 {
        self.value
    }

    fn write(&mut self, bytes: &[u8]) {
        let (parts, rest) = bytes.as_chunks::<7>();
        let (fours, parts) = parts.as_chunks::<4>();
        let value = self.with_fours(fours);
        let value = with_parts(self.point, value, parts);
        self.value = with_part(self.point, value, number_of_part(rest));
    }
}

/// The number of a part of at most seven bytes, below 2^57. It begins with a one, which tells parts of
/// different lengths apart.
fn number_of_part(bytes: &[u8]) -> u64
    ensures { result ≡ number_of_part bytes.now }
{
    bytes.iter().fold(
        1u64,
        |number, byte| number.wrapping_mul(256).wrapping_add(u64::from(*byte)),
    )
}

/// The number of a part of seven bytes, as [`number_of_part`] gives it, in one step.
fn number_of_seven(bytes: &[u8; 7]) -> u64
    ensures { result ≡ number_of_part bytes.now }
{
    let [a, b, c, d, e, f, g] = *bytes;
    u64::from_be_bytes([1, a, b, c, d, e, f, g])
}

/// A shorter number that is the same modulo the prime. It may still be the prime or more: a value is never
/// fully reduced, since nothing rests on it but time.
fn folded(number: u128) -> u128
    ensures { result ≡ folded number }
{
    number % TWO_TO_61 + number / TWO_TO_61
}

/// The product of the two, folded once.
fn product(number: u64, power: u64) -> u128
    ensures { result ≡ folded (number * power) }
{
    folded(number as u128 * power as u128)
}

/// The value after a part of that number: it is multiplied by the point, and the number added.
fn with_part(point: u64, value: u64, number: u64) -> u64
    ensures { result ≡ with_part point value number }
{
    // Nothing is cut: folded twice, a number below 2^128 is below 2^61 + 64.
    folded(folded(value as u128 * point as u128 + number as u128)) as u64
}

/// The value after these parts.
fn with_parts(point: u64, value: u64, parts: &[[u8; 7]]) -> u64
    ensures { result ≡ with_parts point value parts.now }
{
    parts.iter().fold(
        value,
        |value, bytes| with_part(point, value, number_of_seven(bytes)),
    )
}
