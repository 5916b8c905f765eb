//! Numbers drawn one after the other from a state.
ghost use Rattle.std.specs.Prelude.{◌≡◌, ◌<◌};
ghost use Rattle.gen_mod.specs.Draws as spec;

const FACTOR: u128 = 6_364_136_223_846_793_005;

const ADDEND: u128 = 1_442_695_040_888_963_407;

/// The next number below `below`.
pub(crate) fn draw(state: &mut u64, below: u64) -> u64
    requires { 0 < below }
    ensures state { state.new ≡ spec.after state.old }
    ensures number { result ≡ spec.number below state.new }
    ensures small { result < below }
{
    let next = u128::from(*state) * FACTOR + ADDEND;
    *state = (next % (1 << 64)) as u64;
    *state / (1 << 33) % below
}
