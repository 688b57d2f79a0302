//! NETS: a member is told its position in a product, and the operator the product's figures.

ghost use Rattle.std.specs.Prelude.{◌≡◌, IfOk};
ghost use Rattle.std.specs.Result.{result_err};
ghost use Rattle.command_types.specs.Books.{live_network};
ghost use Rattle.command_types.specs.CycleSteps.{market_of};
ghost use Rattle.command_types.specs.Machine.{first_of, nets_answer, nets_refusals, position_of, product_of};
ghost use Rattle.cycle_states.specs.Party.{IsCaller};

use crate::machine::Machine;
use crate::machine::parties::place_of_product;
use crate::machine::party::Caller;
use command_types::{Answer, Refusal};
use net_positions::{bilateral_gross, excess, floor_m, gross};
use product_book::{Book, Which};
use std::alloc::AllocError;
use units_core::{MemberNo, Name, ProductNo};

// What the member owes in the product, what it is owed, and the difference.
fn position_of(book: &Book, product: ProductNo, member: MemberNo) -> Answer
    ensures { result ≡ position_of product member book.now.rows }
{
    let position = book.position(product, member);
    Answer::Own {
        out: position.sold,
        into: position.bought,
        net: position.sold as i64 - position.bought as i64,
    }
}

// The figures of the product's live trades. The only error is want of memory.
fn market_of(book: &Book, product: ProductNo) -> Result<Answer, AllocError>
    ensures { IfOk result (λ answer. answer ≡ market_of (live_network book.now.members product book.now.rows)) }
{
    let network = book.network(product, Which::Live)?;
    Ok(Answer::Market {
        gross: gross(&network),
        floor_m: floor_m(&network),
        excess: excess(&network),
        bilateral: bilateral_gross(&network),
    })
}

impl Machine {
    /// NETS: 5.
    pub(super) fn check_nets(&self, product: &Name) -> Result<(), Refusal>
        ensures { result_err result ≡ first_of (nets_refusals self.now.state product.now) }
    {
        self.unless_product(product)
    }

    /// What a party's NETS is answered.
    pub(super) fn nets(&self, caller: &Caller, product: &Name) -> Result<Answer, AllocError>
        requires { IsCaller self.now.state.roster caller.now }
        ensures { IfOk result (λ answer. answer ≡ nets_answer self.now.state caller.now.name (product_of self.now.state product.now)) }
    {
        let product = place_of_product(&self.roster, product);
        if self.is_operator(caller) {
            return market_of(&self.book, product);
        }
        let member = self.place_of(caller);
        Ok(position_of(&self.book, product, member))
    }
}
