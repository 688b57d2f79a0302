//! TRADE: a party alleges a trade with another. It gets the next number, and becomes live once the other affirms it.

ghost use Rattle.std.specs.Prelude.{◌≡◌};
ghost use Rattle.std.specs.Result.{result_err};
ghost use Rattle.command_types.specs.Machine.{first_of, product_of, trade_refusals};
ghost use Rattle.cycle_states.specs.Party.{IsCaller};
ghost use Rattle.cycle_states.specs.Refusals.{product_refusals};

use crate::machine::Machine;
use crate::machine::conditions::refuse_if;
use crate::machine::parties::place_of_product;
use crate::machine::party::Caller;
use crate::machine::terms::Terms;
use command_types::Refusal;
use units_core::{MOST_GROSS, MOST_SUBMITTED, MOST_TRADE_AMOUNT, Name, ProductNo};

impl Machine {
    // What the product of this place and the other trades refuse: 22, 9, 10.
    fn check_place(&self, product: ProductNo, terms: &Terms) -> Result<(), Refusal>
        ensures { result_err result ≡ first_of (product_refusals self.now.state product terms.now.amount terms.now.day) }
    {
        if let Err(refusal) = self.unless_before_maturity(product, terms.day) {
            return Err(refusal);
        }
        let gross = self.book.product_sum(product) + terms.amount.get();
        refuse_if(gross > MOST_GROSS, Refusal::GrossOver)?;
        let full = self.book.submitted_count() >= MOST_SUBMITTED;
        refuse_if(full, Refusal::TradesFull)
    }

    // The place of the product with this name; 0 where there is none.
    fn place_named(&self, name: &Name) -> ProductNo
        ensures { result ≡ product_of self.now.state name.now }
    {
        place_of_product(&self.roster, name)
    }

    // What the product and the other trades refuse: 22, 9, 10.
    fn check_product(&self, terms: &Terms) -> Result<(), Refusal>
        ensures { result_err result ≡ first_of (product_refusals self.now.state (product_of self.now.state terms.now.product) terms.now.amount terms.now.day) }
    {
        let product = self.place_named(&terms.product);
        self.check_place(product, terms)
    }

    /// TRADE: 4, 5, 6, 7, 8, 22, 9, 10.
    pub(super) fn check_trade(&self, caller: &Caller, terms: &Terms) -> Result<(), Refusal>
        requires { IsCaller self.now.state.roster caller.now }
        ensures { result_err result ≡ first_of (trade_refusals self.now.state caller.now.name terms.now.seller terms.now.buyer terms.now.product terms.now.amount terms.now.day) }
    {
        let (seller, buyer, amount) = (&terms.seller, &terms.buyer, terms.amount.get());
        let by = &caller.name;
        if let Err(refusal) = self.unless_members(seller, buyer) {
            return Err(refusal);
        }
        self.unless_product(&terms.product)?;
        refuse_if(seller.is(buyer), Refusal::OwnTrade)?;
        refuse_if(!(by.is(seller) || by.is(buyer)), Refusal::NotParty)?;
        refuse_if(amount > MOST_TRADE_AMOUNT, Refusal::AmountOver)?;
        self.check_product(terms)
    }
}
