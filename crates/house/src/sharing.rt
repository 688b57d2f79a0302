//! Which commands may stand together in a call. What has a long answer is asked alone: else the answers of a whole call would
//! stand in memory at once.
ghost use Rattle.std.specs.Prelude.{◌≡◌, is_some, IfSome};
ghost use Rattle.house.specs.Batch.{is_shared};

use command_types::{Ask, Entry, What};

// What the command asks, again, where it may stand among others in a call.
fn shared_what(what: &What) -> Option<What>
    ensures same { IfSome result (λ w. w ≡ what.now) }
    ensures shared { is_some result ≡ is_shared what.now }
{
    Some(match what {
        What::Trade {
            seller,
            buyer,
            product,
            amount,
            day,
        } => What::Trade {
            seller: *seller,
            buyer: *buyer,
            product: *product,
            amount: *amount,
            day: *day,
        },
        What::Affirm { trade } => What::Affirm { trade: *trade },
        What::End { trade } => What::End { trade: *trade },
        What::Hold { trade } => What::Hold { trade: *trade },
        What::Free { trade } => What::Free { trade: *trade },
        What::Nets { product } => What::Nets { product: *product },
        _ => return None,
    })
}

/// The command again, where it may stand among others in a call. It takes no memory.
pub(crate) fn shared(command: &Entry) -> Option<Entry>
    ensures same { IfSome result (λ e. e ≡ command.now) }
    ensures shared { is_some result ≡ is_shared command.now.ask.what }
{
    match shared_what(&command.ask.what) {
        Some(what) => Some(Entry {
            seat: command.seat,
            ask: Ask {
                by: command.ask.by,
                what,
                moment: command.ask.moment,
            },
        }),
        None => None,
    }
}
