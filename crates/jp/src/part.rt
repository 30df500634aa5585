// The fraction as a part of a symbol.
ghost use Rattle.std.specs.Prelude.{◌≡◌, ◌≤◌};
ghost use Rattle.jp.specs.Part.{part_of};

// A whole number of 65,536ths, divided once. Nothing is rounded.
pub fn part_of(fraction: u64) -> f64
    requires { fraction ≤ 65535 }
    ensures { result ≡ part_of fraction }
{
    fraction as f64 / 65536.0
}
