// Whether the parentheses of a text go too deep (document 01, "Conditions").
#![tactic(auto)]

ghost use Rattle.std.specs.Prelude.{◌≡◌};
ghost use Rattle.condition_depth.specs.Depth.{deep};

// A condition is at most so many parentheses deep.
pub const MAX_DEPTH: usize = 16;

// Openings and closings outside quotes are counted apart: there may be more closings.
#[tactic(auto, using(crate::proofs::Depths::step), unfolding(crate::specs::Depth::deep))]
pub fn too_deep(s: &[u8]) -> bool
    ensures { result ≡ deep s.now }
{
    let mut opened: usize = 0;
    let mut closed: usize = 0;
    let mut quoted = false;
    for &b in s {
        match b {
            b'"' => quoted = !quoted,
            b'(' if !quoted => {
                opened += 1;
                if opened.saturating_sub(closed) > MAX_DEPTH {
                    return true;
                }
            }
            b')' if !quoted => closed += 1,
            _ => {}
        }
    }
    false
}
