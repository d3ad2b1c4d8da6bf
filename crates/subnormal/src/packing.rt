// The float nearest to a fraction of the smallest value, packed.
ghost use Rattle.std.specs.Prelude.{◌≡◌, ◌+◌, ◌-◌, ◌^◌, ◌≤◌, ◌<◌, min, max};
ghost use Rattle.std.specs.Float.Ieee.{size};
ghost use Rattle.std.specs.Float.Ieee.Nearest.{closest};
ghost use Rattle.subnormal.specs.Packing.{pattern};

// The pattern of the float nearest to p * 2^64 / 2^t smallest values, of two as near the even one.
pub fn packed(p: u64, t: u32) -> u32
    requires p_bound { p < 2 ^ 50 }
    requires bound { 65 ≤ max (size p + 40) t }
    requires t_bound { t ≤ 250 }
    ensures value { result ≡ pattern p t }
    ensures upper_bound { result < 0x7f80_0000 }
{
    let beyond = (digits(p) + 40).saturating_sub(t);
    let kept = nearest(p, beyond + t - 64);
    (beyond << 23) + kept as u32
}

// How many binary digits p has, none for 0.
fn digits(p: u64) -> u32
    ensures { result ≡ size p }
{
    64 - p.leading_zeros()
}

// The whole number nearest to p / 2^k, of two as near the even one.
fn nearest(p: u64, k: u32) -> u64
    requires p_bound { p < 2 ^ 50 }
    requires k_nonzero { 0 < k }
    ensures { result ≡ closest p (2 ^ k) }
{
    let j = k.min(63);
    let half = 1u64 << (j - 1);
    (p + (half - 1) + ((p >> j) & 1)) >> j
}
