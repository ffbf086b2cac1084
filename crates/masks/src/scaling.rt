// "The element over ten to the m is shown with n decimals": the size of the scaled number.
ghost use Rattle.std.specs.Prelude.{◌≡◌, ◌≤◌, ◌<◌};
ghost use Rattle.paper.specs.Answers.{told};
ghost use Rattle.paper.specs.Sizes.{number_most};
ghost use Rattle.paper.specs.Masks.{rounded, scaled_size};
ghost use Rattle.masks.specs.Scaling.{in_range};

use numbers::writing;
use paper::Refusal;

// a size over ten to the m, with n decimals; one out of range is never made
#[tactic(auto, using(crate::proofs::ScalingLaws::scaling))]
pub(crate) fn scaled(size: u64, decimals: u64, scale: u64) -> Result<u64, Refusal>
    requires { (size ≤ number_most) × (decimals ≤ 9) × (scale ≤ 9) }
    ensures { told result ≡ in_range (scaled_size decimals scale size) }
{
    if decimals <= scale {
        let over = writing::power((scale - decimals) as usize);
        return Ok(rounded(size, over));
    }
    let times = writing::power((decimals - scale) as usize);
    if numbers::MOST / times < size {
        return Err(Refusal::OutOfRange);
    }
    Ok(size * times)
}

// "dropped digits round to nearest", "Halves are to round away from zero" (document 02, L2): of a size, up
#[tactic(auto, unfolding(paper::specs::Masks::rounded))]
fn rounded(size: u64, over: u64) -> u64
    requires { (size ≤ number_most) × (0 < over) × (over ≤ number_most) }
    ensures { result ≡ rounded size over }
{
    let twice = 2 * (size % over);
    if over <= twice {
        size / over + 1
    } else {
        size / over
    }
}
