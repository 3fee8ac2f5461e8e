// Random numbers for transactions over cells.
ghost use Rattle.std.specs.Prelude.{◌<◌};

/// A random number below this one.
pub fn draw(seed: &mut u64, below: u32) -> u32
    requires some { 0 < below }
    ensures { result < below }
{
    *seed = seed
        .wrapping_mul(6_364_136_223_846_793_005)
        .wrapping_add(1_442_695_040_888_963_407);
    ((*seed >> 33) % u64::from(below)) as u32
}
