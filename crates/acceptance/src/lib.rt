// Accepting a squeezed list from elsewhere: whoever made it, it may stand in for its source where it has no more rules and answers alike
// on every header.
#![tactic(auto)]

ghost use Rattle.std.specs.Prelude.{◌≡◌};
ghost use Rattle.acceptance.specs.Rejections.{refused_as, refusal_of};

mod accepting;

pub use accepting::accept;
use rules::{Reason, Refusal, Wire};

// Why a candidate is not accepted: the refusal of a check, or that the two lists answer differently, with the lowest header on which they
// do and both answers, 65535 for no match.
#[derive(Clone, Copy)]
pub enum Rejection {
    Refused(Refusal),
    Differs {
        header: Wire,
        source: u16,
        candidate: u16,
    },
}

impl From<Refusal> for Rejection {
    ghost from_gives = { λ x r. r ≡ refused_as x };

    fn from(refusal: Refusal) -> Rejection {
        Rejection::Refused(refusal)
    }
}

impl Rejection {
    // The refusal that it is: 28, at no place, where the two lists answer differently.
    pub fn refusal(self) -> Refusal
        ensures { result ≡ refusal_of self }
    {
        match self {
            Rejection::Refused(x) => x,
            Rejection::Differs { .. } => Refusal {
                reason: Reason::Differs,
                list: 0,
                rule: 0,
            },
        }
    }
}
