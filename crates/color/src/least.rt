// The least of the values that a scan meets, the first of several.
ghost use Rattle.std.specs.Prelude.{◌≡◌};
ghost use Rattle.color.specs.Least.{lowered};

// The least value that a scan has met, and where it stands.
#[derive(Clone, Copy, Debug, PartialEq)]
pub struct Least {
    pub at: usize,
    pub value: f64,
}

// The least value so far, with one more: that is taken if it is less.
#[tactic(auto, unfolding(crate::specs::Least::lowered))]
pub fn lower(best: Option<Least>, next: Least) -> Least
    ensures { result ≡ lowered best next }
{
    let Some(least) = best else {
        return next;
    };
    if next.value < least.value {
        next
    } else {
        least
    }
}
