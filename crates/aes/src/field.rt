// The field of octets (FIPS 197, 4.2): times {02}, and products.
ghost use Rattle.std.specs.Prelude.{◌≡◌};
ghost use Rattle.meaning.specs.Field.{xtime, product};

// An octet times {02}.
pub fn double(a: u8) -> u8
    ensures { result ≡ xtime a }
{
    (a << 1) ^ ((a >> 7) * 0x1b)
}

// The product of two octets in the field. The multiplier halves at each call: document 01 names this form.
pub fn product(a: u8, b: u8) -> u8
    ensures { result ≡ product a b }
{
    if b == 0 {
        0
    } else {
        let rest = product(double(a), b / 2);
        if b % 2 == 1 { a ^ rest } else { rest }
    }
}
