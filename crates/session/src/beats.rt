// Division by δ as a product: a division takes much longer, and a pass over notes divides at each note.
ghost use Rattle.std.specs.Prelude.{◌≡◌, ◌*◌, ◌/◌, ◌<◌, ◌≤◌};
ghost use Rattle.model.specs.Limits.{max_beats, max_delta};
ghost use Rattle.session.specs.Dividing.{reciprocal_of};

// δ, or another number in its range, with the factor that divides by it.
#[derive(Clone, Copy)]
pub struct Divisor {
    pub delta: u32,
    // 2^42 / δ + 1.
    pub reciprocal: u64,
    pub ghost some: { 0 < delta },
    pub ghost few: { delta ≤ max_delta },
    pub ghost inverse: { reciprocal ≡ reciprocal_of delta },
}

impl Divisor {
    pub fn new(delta: u32) -> Divisor
        requires { (0 < delta) × (delta ≤ max_delta) }
        ensures { result.delta ≡ delta }
    {
        Divisor {
            delta,
            reciprocal: reciprocal(delta),
        }
    }

    // The beat of a tick of a take. δ itself is there for the contract: the product needs only its reciprocal.
    pub fn beat_of(self, tick: u32) -> u32
        requires { tick ≤ max_beats * self.delta }
        ensures { result ≡ tick / self.delta }
    {
        ((tick as u64) * self.reciprocal / 4398046511104) as u32
    }
}

// 2^42 / δ + 1.
#[tactic(auto, unfolding(crate::specs::Dividing::reciprocal_of))]
pub fn reciprocal(delta: u32) -> u64
    requires { 0 < delta }
    ensures { result ≡ reciprocal_of delta }
{
    4398046511104 / (delta as u64) + 1
}
