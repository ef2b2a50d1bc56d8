// The regions of a mask: set places joined by steps to the four neighbours.
ghost use Rattle.std.specs.Prelude.{◌≡◌, length, get_or};
ghost use Rattle.base.specs.Places.{table};
ghost use Rattle.rules.specs.Masks.{mask_answer, mask_labels};
ghost use Rattle.mask.specs.Lines.{bit_of};

use crate::dilation::bit;
use base::Refusal;
use grid::{Grid, Neighbourhood};
use labels::label::label_into;
use refusals::grid_refusal;

// The mask goes to plane 0: 1 for a set place, 0 for another.
fn paint(mask: &[u8], plane: &mut [u32])
    requires { length mask.now ≡ length plane.old }
    ensures { plane.new ≡ table (length mask.now) (λ p. bit_of (get_or mask.now p 0)) }
{
    for (p, v) in mask.iter().enumerate() {
        plane[p] = bit(*v);
    }
}

// The labels of the regions, 0 for unset, and their number.
pub fn label4(
    mask: &[u8],
    h: usize,
    w: usize,
    labels: &mut [u32],
    work: &mut [u32],
) -> Result<u32, Refusal>
    ensures value { result ≡ mask_answer mask.now h w labels.old (length work.old) }
    ensures labels_after { labels.new ≡ mask_labels mask.now h w labels.old (length work.old) }
{
    grid_refusal(h, w, mask.len(), labels.len(), work.len())?;
    let n = h * w;
    paint(&mask[..n], &mut work[..n]);
    let near = Neighbourhood::Four;
    let grid = Grid { h, w, near };
    Ok(label_into(work, grid, labels))
}
