ghost use Rattle.std.specs.Prelude.{◌≡◌};
ghost use Rattle.generation.specs.Payments.{payment_of, seen_payment};
ghost use Rattle.generation.specs.Views.{seen_roll};

use crate::roll::Roll;
use bonds::Terms;
use conventions::Adjusted;
use dates::Day;

/// A payment: when it falls due, the fixing of its rate if there is one, its days and its amount.
#[derive(Clone, Copy, PartialEq, Debug)]
pub struct Payment {
    pub date: Adjusted,
    pub fixing: Option<Day>,
    pub days: u32,
    pub amount: u64,
}

impl Payment {
    /// The payment of the period from one roll to the next.
    pub fn between(terms: &Terms, from: Roll, to: Roll) -> Payment
        ensures { seen_payment result ≡ payment_of terms.now.face terms.now.rate (seen_roll from) (seen_roll to) }
    {
        let days = to.adjusted.day().0.saturating_sub(from.adjusted.day().0);
        Payment {
            date: to.adjusted,
            fixing: from.fixing,
            days,
            amount: terms.amount(days),
        }
    }
}
