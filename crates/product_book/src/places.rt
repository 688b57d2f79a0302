//! Where a member and an ordered pair of members stand: product by product, in the order of the sellers, and of the buyers.

ghost use Rattle.std.specs.Prelude.{◌≡◌, ◌<◌, ◌≤◌, None, IfSome};
ghost use Rattle.product_book.specs.Kept.{member_place, pair_place};
ghost use Rattle.units_core.specs.declared.limits.TheConstants.{MOST_MEMBERS, MOST_PRODUCTS};

/// The place of a member in a product.
pub(super) fn member_place(members: u16, product: usize, member: usize) -> usize
    requires members { members ≤ MOST_MEMBERS }
    requires product { product < MOST_PRODUCTS }
    requires member { member < members }
    ensures { result ≡ member_place members product member }
{
    product * members as usize + member
}

/// The place of an ordered pair in a product.
pub(super) fn pair_place(members: u16, product: usize, seller: usize, buyer: usize) -> u32
    requires members { members ≤ MOST_MEMBERS }
    requires product { product < MOST_PRODUCTS }
    requires seller { seller < members }
    requires buyer { buyer < members }
    ensures { result ≡ pair_place members product seller buyer }
{
    let line = product as u32 * members as u32 + seller as u32;
    line * members as u32 + buyer as u32
}

/// The place of a product, a seller and a buyer; none where there is no such product or member.
pub(super) fn place_of(members: u16, products: u16, pair: (usize, usize, usize)) -> Option<u32>
    requires few { members ≤ MOST_MEMBERS }
    requires few_products { products ≤ MOST_PRODUCTS }
    ensures found { IfSome result (λ place. place ≡ pair_place members pair.0 pair.1 pair.2) }
    ensures product { IfSome result (λ _. pair.0 < products) }
    ensures seller { IfSome result (λ _. pair.1 < members) }
    ensures buyer { IfSome result (λ _. pair.2 < members) }
    ensures none { result ≡ None → pair.0 < products → pair.1 < members → pair.2 < members → ⊥ }
{
    let (product, seller, buyer) = pair;
    if product >= products as usize {
        return None;
    }
    if seller >= members as usize {
        return None;
    }
    if buyer >= members as usize {
        return None;
    }
    Some(pair_place(members, product, seller, buyer))
}
