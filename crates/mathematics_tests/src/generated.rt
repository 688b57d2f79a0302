//! Generated markets: 44 members, of whom the first 14 are dealers, 8 products and 3,000 trades.

use crate::networks::{Bound, Market, Sale, so};
use crate::problems::problem_of;
use crate::solvers::{gross_is_same, paths_certify};
use network_laws::Problem;
use std::alloc::{AllocError, Global};
use std::test::Fail;

const MEMBERS: u16 = 44;

const DEALERS: u16 = 14;

const PRODUCTS: u16 = 8;

const TRADES: u16 = 3_000;

/// Numbers by a linear congruential generator, from the number of a market on.
#[derive(Clone, Copy)]
pub struct Draws {
    pub state: u64,
}

impl Draws {
    /// The next number, below 2^31.
    pub fn draw(&mut self) -> u64 {
        self.state = self
            .state
            .wrapping_mul(6_364_136_223_846_793_005)
            .wrapping_add(1_442_695_040_888_963_407);
        self.state >> 33
    }
}

/// The place of a pair's sum in a product.
fn place(product: u64, seller: u64, buyer: u64) -> usize {
    let members = u64::from(MEMBERS);
    ((product % 8 * members + seller % members) * members + buyer % members) as usize
}

/// What each member sold to each other one, product by product.
fn sums_of(alloc: Global, number: u64) -> Result<Vec<u64>, Fail> {
    let mut sums = Vec::new(alloc);
    for _pair in 0..PRODUCTS * MEMBERS * MEMBERS {
        sums.push(0u64)?;
    }
    let mut draws = Draws { state: number };
    for _trade in 0..TRADES {
        let seller = draws.draw() % 44;
        let among_others = draws.draw() % 43;
        let buyer = if among_others < seller {
            among_others
        } else {
            among_others + 1
        };
        let product = draws.draw() % 8;
        let amount = 1 + draws.draw() % 1_000_000;
        let Some(sum) = sums.get_mut(place(product, seller, buyer)) else {
            return Err("there is no such pair".into());
        };
        *sum = sum.saturating_add(amount);
    }
    Ok(sums)
}

/// The pairs of a product in order, with their sums.
fn pairs_of(alloc: Global, sums: &[u64], product: u16) -> Result<Vec<Sale>, AllocError> {
    let mut pairs = Vec::new(alloc);
    for seller in 0..MEMBERS {
        for buyer in 0..MEMBERS {
            if seller != buyer {
                let at = place(u64::from(product), u64::from(seller), u64::from(buyer));
                let sum = match sums.get(at) {
                    Some(sum) => *sum,
                    None => 0,
                };
                pairs.push((seller, buyer, sum))?;
            }
        }
    }
    Ok(pairs)
}

/// The least gross of each product of the markets 1 to 8, as LEMON's network simplex finds it (`bench/lemon.cpp`),
/// where two dealers may sell any amount to one another.
const LEAST: [[u64; 8]; 8] = [
    [
        48_514_897, 55_588_139, 48_192_453, 54_841_823, 48_449_969, 54_765_173, 50_133_414,
        46_759_284,
    ],
    [
        42_369_895, 47_703_990, 64_240_372, 49_755_824, 54_755_143, 39_837_236, 56_572_648,
        56_156_009,
    ],
    [
        44_172_392, 46_230_370, 52_103_656, 52_485_158, 42_720_907, 45_964_747, 51_698_160,
        49_590_112,
    ],
    [
        50_228_279, 46_848_043, 40_539_085, 57_733_947, 50_025_589, 37_986_849, 44_927_397,
        46_560_466,
    ],
    [
        63_234_473, 43_391_705, 42_608_476, 51_635_373, 36_605_625, 56_797_277, 36_012_095,
        49_255_173,
    ],
    [
        48_687_823, 47_947_214, 48_765_598, 67_126_187, 42_016_748, 49_036_354, 46_631_247,
        36_857_114,
    ],
    [
        46_733_176, 48_056_305, 49_343_929, 54_145_516, 54_778_658, 48_551_647, 53_321_393,
        45_060_149,
    ],
    [
        53_599_775, 60_270_226, 49_018_300, 47_362_964, 45_241_581, 39_232_303, 55_553_026,
        56_367_170,
    ],
];

/// A product as a problem.
fn product_of(alloc: Global, sums: &[u64], product: u16) -> Result<Problem, Fail> {
    let mut sales: Vec<Sale> = Vec::new(alloc);
    let mut bounds: Vec<Bound> = Vec::new(alloc);
    for (seller, buyer, sum) in pairs_of(alloc, sums, product)? {
        if sum > 0 {
            sales.push((seller, buyer, sum))?;
        }
        let grows = seller < DEALERS && buyer < DEALERS;
        let upper = if grows { None } else { Some(sum) };
        bounds.push((seller, buyer, 0, upper))?;
    }
    let market = Market {
        members: MEMBERS,
        sales: &sales,
        bounds: &bounds,
    };
    problem_of(alloc, market)
}

/// The generator's first number, as it is known from outside.
#[test]
fn the_first_number_is_drawn() -> Result<(), Fail> {
    let mut draws = Draws { state: 1 };
    so(draws.draw() == 908_834_774, "another number is drawn")
}

/// That the solver by paths finds the least gross of a product.
fn is_least(alloc: Global, sums: &[u64], product: u16, least: u64) -> Result<(), Fail> {
    paths_certify(alloc, &product_of(alloc, sums, product)?, least)
}

fn are_least(alloc: Global) -> Result<(), Fail> {
    for (number, market) in (1..9u64).zip(LEAST.iter()) {
        let sums = sums_of(alloc, number)?;
        for (product, least) in (0..PRODUCTS).zip(market.iter()) {
            is_least(alloc, &sums, product, *least)?;
        }
    }
    Ok(())
}

#[test]
fn paths_find_the_least_gross_of_generated_markets(rt: HostRuntime) -> Result<(), Fail> {
    are_least(rt.alloc())
}

/// A product of two of the markets; the solver by cycles takes long for more.
fn are_same(alloc: Global) -> Result<(), Fail> {
    for number in 1..3u64 {
        let sums = sums_of(alloc, number)?;
        gross_is_same(alloc, &product_of(alloc, &sums, 0)?)?;
    }
    Ok(())
}

#[test]
fn both_find_the_same_gross_for_generated_markets(rt: HostRuntime) -> Result<(), Fail> {
    are_same(rt.alloc())
}
