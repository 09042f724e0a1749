//! Numbers that look random and are the same in each run.
ghost use Rattle.std.specs.Prelude.{◌≡◌, ◌+◌, ◌*◌, ◌/◌, ◌%◌, ◌^◌};

/// Returns the upper half of the next state of a linear congruential generator.
pub fn next(seed: &mut u64) -> u64
    ensures state { seed.new ≡ (seed.old * 6364136223846793005 + 1442695040888963407) % 2 ^ 64 }
    ensures upper { result ≡ seed.new / 2 ^ 32 }
{
    *seed = seed
        .wrapping_mul(6_364_136_223_846_793_005)
        .wrapping_add(1_442_695_040_888_963_407);
    *seed >> 32
}
