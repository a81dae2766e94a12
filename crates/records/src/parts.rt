// Parts of what is lent, given back without copying.
ghost use Rattle.std.specs.Prelude.{◌≡◌, drop};
ghost use Rattle.meaning.specs.Octets.{part};

// The octets from a place on; none where it is past the end.
pub fn rest_from(s: &[u8], at: usize) -> &[u8]
    ensures { result.now ≡ drop at s.now }
{
    &s[at.min(s.len())..]
}

// The n octets from a place on, or as many of them as there are.
pub fn part_of(s: &[u8], at: usize, n: usize) -> &[u8]
    ensures { result.now ≡ part at n s.now }
{
    let rest = rest_from(s, at);
    &rest[..n.min(rest.len())]
}
