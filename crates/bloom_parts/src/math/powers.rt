//! Powers of fractions in units of 2^-63, with each product rounded, and counted.
ghost use Rattle.std.specs.Prelude.{◌≡◌, ℕ, ◌+◌, ◌*◌, ◌^◌, ◌<◌, ◌≤◌};
ghost use Rattle.bloom_parts.specs.Powers.{down_of, up_of, lower_power_of, upper_power_of, products_of};

// One whole.
pub(super) const UNIT: u64 = 1 << 63;

// The product of two fractions, rounded down.
fn down(x: u64, y: u64, products: &mut u32) -> u64
    requires left { x ≤ 2 ^ 63 }
    requires right { y ≤ 2 ^ 63 }
    requires room { products.old < 256 }
    ensures value { result ≡ down_of x y }
    ensures fits { result ≤ 2 ^ 63 }
    ensures products { products.new ≡ products.old + 1 }
{
    *products += 1;
    ((x as u128 * y as u128) >> 63) as u64
}

// The product of two fractions, rounded up.
fn up(x: u64, y: u64, products: &mut u32) -> u64
    requires left { x ≤ 2 ^ 63 }
    requires right { y ≤ 2 ^ 63 }
    requires room { products.old < 256 }
    ensures value { result ≡ up_of x y }
    ensures fits { result ≤ 2 ^ 63 }
    ensures products { products.new ≡ products.old + 1 }
{
    *products += 1;
    ((x as u128 * y as u128 + (UNIT - 1) as u128) >> 63) as u64
}

// The power of `base` to `exponent`, by squares, from the highest digit of the exponent on, with
// each product rounded down.
pub(super) fn lower_power(base: u64, exponent: u128, products: &mut u32) -> u64
    requires base { base ≤ 2 ^ 63 }
    requires none { products.old ≡ 0 }
    ensures value { result ≡ lower_power_of base exponent }
    ensures fits { result ≤ 2 ^ 63 }
    ensures products { (digits : ℕ) → exponent < 2 ^ digits → products.new ≤ 2 * digits }
    ensures exact { products.new ≡ products_of exponent }
{
    let mut power = UNIT;
    'digits: for i in (0..128 - exponent.leading_zeros()).rev() {
        power = down(power, power, products);
        if (exponent >> i) % 2 == 1 {
            power = down(power, base, products);
        }
    }
    power
}

// The same power, with each product rounded up.
pub(super) fn upper_power(base: u64, exponent: u128, products: &mut u32) -> u64
    requires base { base ≤ 2 ^ 63 }
    requires none { products.old ≡ 0 }
    ensures value { result ≡ upper_power_of base exponent }
    ensures fits { result ≤ 2 ^ 63 }
    ensures products { (digits : ℕ) → exponent < 2 ^ digits → products.new ≤ 2 * digits }
    ensures exact { products.new ≡ products_of exponent }
{
    let mut power = UNIT;
    'digits: for i in (0..128 - exponent.leading_zeros()).rev() {
        power = up(power, power, products);
        if (exponent >> i) % 2 == 1 {
            power = up(power, base, products);
        }
    }
    power
}
