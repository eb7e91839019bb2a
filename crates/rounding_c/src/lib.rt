//! The functions of `rounding` and `fused` for C, to be measured beside C's own (tools/bench_rounding.py).
#![tactic(auto)]

ghost use Rattle.std.specs.Prelude.{◌≡◌};
ghost use Rattle.std.specs.Float.{binary64};
ghost use Rattle.fused.specs.Fused.{fma};
ghost use Rattle.rounding.specs.Rounding.{floor, narrow, truncate};

/// a * b + c rounded once.
#[unsafe(no_mangle)]
pub extern "C" fn rounding_fma(a: f64, b: f64, c: f64) -> f64
    ensures { result ≡ fma binary64 a b c }
{
    fused::fma(a, b, c)
}

/// The f32 pattern nearest to x.
#[unsafe(no_mangle)]
pub extern "C" fn rounding_narrow(x: f64) -> u32
    ensures { result ≡ narrow x }
{
    rounding::narrow(x)
}

/// The f32 pattern of a * b + c rounded once.
#[unsafe(no_mangle)]
pub extern "C" fn rounding_fma_narrow(a: f64, b: f64, c: f64) -> u32
    ensures { result ≡ narrow (fma binary64 a b c) }
{
    fused::fma_narrow(a, b, c)
}

/// The largest whole number that is not above x.
#[unsafe(no_mangle)]
pub extern "C" fn rounding_floor(x: f64) -> f64
    ensures { result ≡ floor binary64 x }
{
    rounding::floor(x)
}

/// x without its fraction.
#[unsafe(no_mangle)]
pub extern "C" fn rounding_truncate(x: f64) -> u64
    ensures { result ≡ truncate x }
{
    rounding::truncate(x)
}
