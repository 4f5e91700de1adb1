// Numbers that follow from a number.
ghost use Rattle.std.specs.Prelude.{◌≡◌, ◌<◌};
ghost use Rattle.bfs_soak.specs.Workload.{next_state, drawn};

/// The state after a draw: x * 6364136223846793005 + 1442695040888963407, in 64 bits.
#[tactic(auto, unfolding(crate::specs::Workload::next_state))]
pub fn next_state(x: u64) -> u64
    ensures { result ≡ next_state x }
{
    x.wrapping_mul(6_364_136_223_846_793_005)
        .wrapping_add(1_442_695_040_888_963_407)
}

/// What is drawn below n, by the state after the draw.
pub fn drawn(n: u64, x: u64) -> u64
    requires { 0 < n }
    ensures value { result ≡ drawn n x }
    ensures below { result < n }
{
    (x >> 33) % n
}
