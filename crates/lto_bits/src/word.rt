//! Words of a width: the greatest one, wrapping to a width, and the signed value.
ghost use Rattle.std.specs.Prelude.{◌≡◌, ◌-◌, ◌%◌, ◌^◌, ◌<◌, ◌≤◌, nat_lt};
ghost use Rattle.lto_bits.specs.Word.{signed as signed_value, fits_signed as signed_fits, wrapped};

// The greatest number of `w` bits, whose bits are all set.
pub fn greatest(w: u8) -> u64
    requires some { 1 ≤ w }
    requires within { w ≤ 64 }
    ensures { result ≡ 2 ^ w - 1 }
{
    u64::MAX >> (64 - w)
}

// The least number as signed, whose sign bit alone is set.
pub fn sign_bit(w: u8) -> u64
    requires some { 1 ≤ w }
    requires within { w ≤ 64 }
    ensures { result ≡ 2 ^ (w - 1) }
{
    1 << (w - 1)
}

// The low `w` bits.
pub fn low_bits(w: u8, x: u64) -> u64
    requires some { 1 ≤ w }
    requires within { w ≤ 64 }
    ensures { result ≡ x % 2 ^ w }
{
    x & greatest(w)
}

// The signed value of a number of `w` bits.
pub fn signed(w: u8, a: u64) -> i64
    requires some { 1 ≤ w }
    requires within { w ≤ 64 }
    requires below { a < 2 ^ w }
    ensures { result ≡ signed_value w a }
{
    if a < sign_bit(w) {
        a.cast_signed()
    } else {
        (a + (u64::MAX - greatest(w))).cast_signed()
    }
}

// The number of `w` bits that this one wraps to.
pub fn wrap(w: u8, z: i64) -> u64
    requires some { 1 ≤ w }
    requires within { w ≤ 64 }
    ensures { result ≡ wrapped w z }
{
    low_bits(w, z.cast_unsigned())
}

// Whether a number is one of `w` bits.
pub fn fits_unsigned(w: u8, n: u128) -> bool
    requires some { 1 ≤ w }
    requires within { w ≤ 64 }
    ensures { result ≡ nat_lt n (2 ^ w) }
{
    n <= u128::from(greatest(w))
}

// Whether a number is the signed value of some number of `w` bits.
pub fn fits_signed(w: u8, z: i128) -> bool
    requires some { 1 ≤ w }
    requires within { w ≤ 64 }
    ensures { result ≡ signed_fits w z }
{
    let bound = i128::from(sign_bit(w));
    -bound <= z && z < bound
}
